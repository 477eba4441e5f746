// What C's variable holds: a console or none.
ghost use Rattle.std.specs.Prelude.{◌≡◌, None, Some, IfOk, IfErr, MatchOption};
ghost use Rattle.p11_handles.specs.HeldConsoles.{HeldDialogue, consoles_of, settings_of};
ghost use Rattle.p11_handles.specs.ConsoleCalls.{OpensConsole, wished};

use crate::console_slot::ConsoleSlot;
use crate::held_console::{HeldConsole, manner_of};
use crate::status::Status;
use p11_console::Settings;
use p11_panel::{Config, Panel};
use std::alloc::Global;
use std::mem::replace;

/// What C's variable holds: a console or none. All its bytes are 0 where it holds none yet.
#[repr(C)]
pub struct ConsoleHandle {
    /// What it holds, and the pointer to it.
    pub slot: ConsoleSlot,
    /// How many it holds: 0 or 1.
    consoles: u32,
    ghost counted: { consoles ≡ consoles_of slot.held },
}

impl Drop for ConsoleHandle {
    fn drop(self) {
        let ConsoleHandle { slot, consoles } = self;
        if consoles == 1 {
            drop(slot.into_box());
        }
    }
}

impl ConsoleHandle {
    /// Takes what it holds.
    #[tactic(auto, unfolding(crate::specs::HeldConsoles::consoles_of))]
    pub fn take(&mut self, alloc: Global) -> Option<Box<HeldConsole>>
        ensures taken { MatchOption result (self.old.slot.held ≡ None) (λ console. self.old.slot.held ≡ Some console.value) }
        ensures none { self.new.slot.held ≡ None }
    {
        let consoles = self.consoles;
        self.consoles = 0;
        let slot = replace(&mut self.slot, ConsoleSlot::empty(alloc));
        if consoles == 1 {
            Some(slot.into_box())
        } else {
            None
        }
    }

    /// Holds a console.
    #[tactic(auto, unfolding(crate::specs::HeldConsoles::consoles_of))]
    pub fn put(&mut self, console: Box<HeldConsole>)
        requires { self.old.slot.held ≡ None }
        ensures { self.new.slot.held ≡ Some console.value }
    {
        self.slot = ConsoleSlot::of(console);
        self.consoles = 1;
    }

    /// Holds a console in the place of what it held.
    pub fn hold(&mut self, alloc: Global, console: Box<HeldConsole>)
        ensures { self.new.slot.held ≡ Some console.value }
    {
        drop(self.take(alloc));
        self.put(console);
    }
}

/// How a dialogue is held, by C's numbers.
#[tactic(auto, unfolding(crate::specs::HeldConsoles::settings_of))]
fn settings_of(manner: u32, strict: u32, saveless: u32, talk: u32) -> Settings
    ensures { result ≡ settings_of manner strict saveless talk }
{
    Settings {
        manner: manner_of(manner),
        is_strict: strict > 0,
        is_saveless: saveless > 0,
        is_talk: talk > 0,
    }
}

/// A console over a new machine of these sizes.
///
/// # Errors
///
/// `BadSize` for sizes that no machine has, and for a number that no manner has; and `NoMemory`.
pub fn new_console(
    alloc: Global,
    kwords: u32,
    lines: u32,
    manner: u32,
    strict: u32,
    saveless: u32,
    talk: u32,
) -> Result<Box<HeldConsole>, Status>
    ensures ok { IfOk result (λ console. (held : HeldDialogue) →
        OpensConsole (wished kwords lines manner strict saveless talk) Status.Done held (Some console.value)) }
    ensures err { IfErr result (λ status. (held : HeldDialogue) →
        OpensConsole (wished kwords lines manner strict saveless talk) status held held) }
{
    let Ok(config) = Config::new(kwords, lines) else {
        return Err(Status::BadSize);
    };
    if manner > 2 {
        return Err(Status::BadSize);
    }
    let Ok(panel) = Panel::new(alloc, config) else {
        return Err(Status::NoMemory);
    };
    let console = HeldConsole::new(alloc, panel, settings_of(manner, strict, saveless, talk));
    match Box::new(alloc, console) {
        Ok(console) => Ok(console),
        Err(_) => Err(Status::NoMemory),
    }
}
