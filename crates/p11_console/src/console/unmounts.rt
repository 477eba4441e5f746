// A pack that is taken off its drive.
ghost use Rattle.std.specs.Prelude.{◌≡◌, false, None, slice_get, OnErr, IfOk, IfErr};
ghost use Rattle.p11_dialogue.specs.Said.{Says};
ghost use Rattle.p11_console.specs.Steps.{Consents, Unmounts, loses};

use super::Console;
use super::typed::agrees;
use crate::packs::loses_sectors;
use crate::tries::act;
use p11_dialogue::{Activity, Text, Want, record_unmount};
use p11_lines::NoMemory;
use p11_panel::Command;
use std::alloc::Allocator;

impl<A: Allocator + Copy> Console<A> {
    /// Takes a pack off its drive; where no file has it, a person is asked first.
    pub(super) fn unmount(
        &mut self,
        alloc: A,
        drive: u32,
        is_agreed: bool,
    ) -> Result<Activity<A>, Want>
        ensures ok { IfOk result (λ activity. Unmounts is_agreed drive self.old (record self.new { activity = activity })) }
        ensures err { IfErr result (λ want. want ≡ Want.Memory) }
        ensures same { OnErr result (self.new ≡ self.old) }
    {
        let text = record_unmount(alloc, drive)?;
        if self.loses(alloc, drive, is_agreed)? {
            self.ask_of(alloc, drive);
            return Ok(Activity::Doubting { drive });
        }
        Ok(act(alloc, &mut self.panel, Command::Unmount { drive }, text))
    }

    /// Whether a line that a person typed would lose sectors that no file has, and that isn't agreed.
    #[tactic(auto, unfolding(crate::specs::Steps::loses))]
    fn loses(&mut self, alloc: A, drive: u32, is_agreed: bool) -> Result<bool, NoMemory>
        ensures is { IfOk result (λ is. is ≡ loses is_agreed drive self.old) }
        ensures same { self.new ≡ self.old }
    {
        if is_agreed || (self.is_scripted || self.settings.is_saveless) {
            return Ok(false);
        }
        loses_sectors(alloc, &mut self.panel, &self.saved, drive)
    }

    /// Asks whether the pack of a drive is taken off.
    fn ask_of(&mut self, alloc: A, drive: u32)
        ensures { Says self.old.screen self.new.screen × (self.new ≡ record self.old { screen = self.new.screen }) }
    {
        let mut said = Text::new(alloc);
        said.add(b"Drive ");
        said.add_number(u64::from(drive));
        said.add(b" has sectors that no file has: lose them (y, or another key)? ");
        self.screen.say(said.as_slice());
    }

    /// Takes the answer to that question.
    pub(super) fn take_consent(&mut self, drive: u32) -> Result<Activity<A>, Want>
        ensures ok { IfOk result (λ activity. Consents (slice_get self.old.waiting 0) drive self.old (record self.new { activity = activity })) }
        ensures err { IfErr result (λ want. (want ≡ Want.Keys) × (slice_get self.old.waiting 0 ≡ None) × (self.old.is_over ≡ false)) }
        ensures same { OnErr result (self.new ≡ self.old) }
    {
        let Some(byte) = self.waiting.first() else {
            if self.is_over {
                self.screen.say(consent_text(false));
                return Ok(Activity::Free);
            }
            return Err(Want::Keys);
        };
        let is_agreed = agrees(byte);
        self.waiting.drop_front(1);
        self.screen.say(consent_text(is_agreed));
        if is_agreed {
            return Ok(Activity::Unmounting {
                drive,
                is_agreed: true,
            });
        }
        Ok(Activity::Free)
    }
}

/// What follows the question whether a pack is taken off.
fn consent_text(is_agreed: bool) -> &'static [u8] {
    if is_agreed {
        b"y\n"
    } else {
        b"no\nNot taken off.\n"
    }
}
