// What the host gives: files, and that one is written.
ghost use Rattle.std.specs.Prelude.{◌≡◌, true, option_copied, IfOk};
ghost use Rattle.p11_console.specs.Files.{Gives, Takes, TakesPut, file_of, wanted, image_in, drive_in, is_done, is_ok_answer, may_replace, is_pack, activity_missing};
ghost use Rattle.p11_dialogue.specs.Manner.{is_batch};
ghost use Rattle.p11_dialogue.specs.Said.{Says};
ghost use Rattle.p11_console.specs.Saved.{unsaved_image};

use super::Console;
use crate::files::{activity_missing, drive_of, file_in, give_line, is_mount, name_of};
use crate::packs::unsaved_image;
use crate::tries::refused;
use crate::trouble::{PutFault, Trouble};
use p11_dialogue::{Activity, Buffer, Note, Text, is_batch, note_of_file};
use p11_lines::{Answer, Bytes, Fault, Line, NoMemory};
use std::alloc::Allocator;

impl<A: Allocator + Copy> Console<A> {
    /// The name of the file that is wanted, or that `image` is for.
    pub fn name(&self) -> Option<&[u8]>
        ensures { option_copied result ≡ wanted self.now.activity }
    {
        match self.activity.get() {
            Activity::Fetching { line, .. } => name_of(line),
            Activity::Putting { line, .. } => name_of(line),
            Activity::Opening { name } => Some(name.as_slice()),
            _ => None,
        }
    }

    /// The bytes that the file is to have.
    pub fn image(&self) -> Option<&[u8]>
        ensures { option_copied result ≡ image_in self.now.activity }
    {
        match self.activity.get() {
            Activity::Putting { image, .. } => Some(image.as_slice()),
            _ => None,
        }
    }

    /// The drive of the pack whose file is wanted or to be written.
    pub fn drive(&self) -> Option<u32>
        ensures { result ≡ drive_in self.now.activity }
    {
        match self.activity.get() {
            Activity::Fetching { line, .. } => drive_of(line),
            Activity::Putting { line, .. } => drive_of(line),
            _ => None,
        }
    }

    /// Whether a line is done, as a MOUNT is once its file was given, and that isn't told yet.
    pub fn is_done(&self) -> bool
        ensures { result ≡ is_done self.now.activity }
    {
        match self.activity.get() {
            Activity::Telling { answer, .. } => is_ok(answer),
            _ => false,
        }
    }

    /// The image of the pack on a drive as it is now, where it has sectors that no file has. Nothing changes.
    pub fn unsaved(&mut self, alloc: A, drive: u32) -> Result<Option<Bytes<A>>, NoMemory>
        ensures image { IfOk result (λ image. image ≡ unsaved_image self.old.machine self.old.saved drive) }
        ensures same { self.new ≡ self.old }
    {
        unsaved_image(alloc, &mut self.panel, &self.saved, drive)
    }

    /// Whether a file of that name which is there may be written over.
    pub fn may_replace(&self) -> bool
        ensures { result ≡ may_replace self.now.activity }
    {
        match self.activity.get() {
            Activity::Putting { is_agreed, .. } => *is_agreed,
            _ => true,
        }
    }

    /// Whether the file that is wanted is a pack's, which a `save` of its drive may write over unasked.
    pub fn is_pack(&self) -> bool
        ensures { result ≡ is_pack self.now.activity }
    {
        match self.activity.get() {
            Activity::Fetching { line, .. } => is_mount(line),
            _ => false,
        }
    }

    /// The host gives the bytes of the file that is wanted, or says why not. Where none is wanted nothing is done.
    pub fn fetched(&mut self, alloc: A, file: Result<Vec<u8, A>, Trouble>)
        ensures { Gives (file_of file) self.old.activity self.old self.new }
    {
        let activity = self.activity.take();
        let activity = self.give(alloc, activity, file);
        self.activity.set(activity);
    }

    fn give(
        &mut self,
        alloc: A,
        activity: Activity<A>,
        file: Result<Vec<u8, A>, Trouble>,
    ) -> Activity<A>
        ensures { Gives (file_of file) activity (record self.old { activity = activity }) (record self.new { activity = result }) }
    {
        match activity {
            Activity::Fetching { line, text } => give_line(
                alloc,
                &mut self.panel,
                &line,
                text,
                file,
            ),
            Activity::Opening { name } => match file {
                Ok(bytes) => {
                    self.script = Buffer::of(bytes);
                    self.asides.open(alloc, name);
                    Activity::Free
                }
                Err(trouble) => self.miss(alloc, name.as_slice(), trouble),
            },
            activity => activity,
        }
    }

    /// A script can't be had.
    fn miss(&mut self, alloc: A, name: &[u8], trouble: Trouble) -> Activity<A>
        ensures activity { result ≡ activity_missing (is_batch self.old.settings.manner) trouble.error }
        ensures state { self.new ≡ record self.old { lacks_script = true } }
    {
        self.lacks_script = true;
        let is_all = is_batch(self.settings.manner);
        if is_all {
            self.asides.miss_script(alloc, name, trouble.reason);
        }
        activity_missing(alloc, is_all, name, trouble)
    }

    /// The host has written the file, or says why not. Where none was to be written nothing is done.
    pub fn put(&mut self, alloc: A, done: Result<(), PutFault>)
        ensures { Takes done self.old.activity self.old self.new }
    {
        let activity = self.activity.take();
        let activity = self.take_put(alloc, activity, done);
        self.activity.set(activity);
    }

    fn take_put(
        &mut self,
        alloc: A,
        activity: Activity<A>,
        done: Result<(), PutFault>,
    ) -> Activity<A>
        ensures { Takes done activity (record self.old { activity = activity }) (record self.new { activity = result }) }
    {
        match activity {
            Activity::Putting {
                line,
                image,
                text,
                ..
            } => self.end_save(alloc, line, image, text, done),
            activity => activity,
        }
    }

    /// Ends a SAVE whose file the host has written, or not.
    fn end_save(
        &mut self,
        alloc: A,
        line: Line<A>,
        image: Bytes<A>,
        text: Bytes<A>,
        done: Result<(), PutFault>,
    ) -> Activity<A>
        ensures { TakesPut done line image text self.old (record self.new { activity = result }) }
    {
        match done {
            Ok(()) => {
                self.saved.note(&line, image);
                Activity::Telling {
                    answer: Answer::Done,
                    text,
                    note: Note::none(),
                }
            }
            Err(PutFault::There) => {
                self.ask(alloc, &line);
                Activity::Asking { line, image, text }
            }
            Err(PutFault::Refused { reason }) => {
                let note = note_of_file(alloc, file_in(&line), reason);
                refused(alloc, Fault::StoreFault, note)
            }
        }
    }

    /// Asks whether the file of a line is written over.
    fn ask(&mut self, alloc: A, line: &Line<A>)
        ensures { Says self.old.screen self.new.screen × (self.new ≡ record self.old { screen = self.new.screen }) }
    {
        let mut said = Text::new(alloc);
        said.add(file_in(line));
        said.add(b" is there: write over it (y, or another key)? ");
        self.screen.say(said.as_slice());
    }
}

/// Whether an answer is OK.
fn is_ok<A: Allocator>(answer: &Answer<A>) -> bool
    ensures { result ≡ is_ok_answer answer.now }
{
    match answer {
        Answer::Done => true,
        _ => false,
    }
}
