// What is said beside the answers, of which contracts see nothing: it is told.
use crate::activity::Activity;
use crate::buffer::Buffer;
use crate::note::Note;
use crate::scripts::Script;
use crate::settings::{Manner, is_batch, is_person};
use crate::text::Text;
use p11_lines::{Answer, Bytes};
use std::alloc::Allocator;
use std::marker::Model;

/// What stands before a line that is typed.
pub const PROMPT: &[u8] = b"p11> ";

/// What is said beside the answers: where a script's lines stand, which files weren't written, how one comes back from a talk.
/// Contracts see nothing of it.
pub struct Asides<A: Allocator> {
    /// What is said apart, of a script that is all.
    errors: Buffer<A>,
    /// Whether it was said how one comes back from a talk.
    has_told_of_talk: bool,
    /// Where the script's lines stand.
    script: Script<A>,
    /// The names of the files that weren't written.
    unwritten: Vec<Bytes<A>, A>,
}

impl<A: Allocator> Drop for Asides<A> {
    fn drop(self) {
        let Asides {
            errors: _,
            has_told_of_talk: _,
            script: _,
            unwritten: _,
        } = self;
    }
}

impl<A: Allocator> Model for Asides<A> {
    ghost Value = { Unit {0} };

    ghost view = { λ _. tt };
}

impl<A: Allocator + Copy> Asides<A> {
    /// Nothing was said.
    pub fn new(alloc: A) -> Self {
        Asides {
            errors: Buffer::new(alloc),
            has_told_of_talk: false,
            script: Script::of(alloc, Bytes::from_vec(Vec::new(alloc))),
            unwritten: Vec::new(alloc),
        }
    }

    /// The bytes for the standard error that the host hasn't taken.
    pub fn errors(&self) -> &[u8] {
        self.errors.as_slice()
    }

    /// The host has taken them.
    pub fn drop_errors(&mut self) {
        let count = self.errors.len();
        self.errors.drop_front(count);
    }

    /// The lines of the script of this name come next.
    pub fn open(&mut self, alloc: A, name: Bytes<A>) {
        self.script = Script::of(alloc, name);
    }

    /// The script's next line is begun.
    pub fn begin_line(&mut self, line: &[u8]) {
        self.script.begin_line(line);
    }

    /// A line is begun that isn't the script's.
    pub fn leave_line(&mut self) {
        self.script.leave_line();
    }

    /// What is said on the screen behind an answer. Of a script that is all it is said apart.
    pub fn behind_answer(
        &mut self,
        alloc: A,
        manner: Manner,
        answer: &Answer<A>,
        note: &Note<A>,
    ) -> Text<A> {
        self.note_unwritten(alloc, note);
        let mut said = Text::new(alloc);
        if is_batch(manner) {
            self.script.add_remark(&mut said, answer, note);
            self.errors.say(said.as_slice());
            return Text::new(alloc);
        }
        self.script.add_note(&mut said, answer, note);
        said
    }

    /// What is said on the screen behind a script. Of a script that is all it is said apart.
    pub fn behind_script(&mut self, alloc: A, manner: Manner, is_to_talk: bool) -> Text<A> {
        let mut said = Text::new(alloc);
        self.script.end(&mut said);
        if is_batch(manner) {
            self.add_unwritten(&mut said);
            self.errors.say(said.as_slice());
            return Text::new(alloc);
        }
        if is_to_talk {
            said.add(self.of_talk(manner));
        } else if is_person(manner) {
            said.add(PROMPT);
        }
        said
    }

    /// What is said as something comes under way.
    pub fn of_activity(&mut self, manner: Manner, activity: &Activity<A>) -> &'static [u8] {
        match activity {
            Activity::Running(run) if run.is_talk => self.of_talk(manner),
            _ => b"",
        }
    }

    /// How one comes back from a talk, once, where a person types.
    fn of_talk(&mut self, manner: Manner) -> &'static [u8] {
        let is_first = !self.has_told_of_talk && is_person(manner);
        self.has_told_of_talk = true;
        if is_first {
            b"(Ctrl-E comes back to the console.)\n"
        } else {
            b""
        }
    }

    /// Says apart that a script that is all can't be had, and why.
    pub fn miss_script(&mut self, alloc: A, name: &[u8], reason: &str) {
        let mut said = Text::new(alloc);
        said.add(b"terminal: ");
        said.add(name);
        said.add(b": ");
        said.add(reason.as_bytes());
        said.add(b"\n");
        self.errors.say(said.as_slice());
    }

    /// Keeps the name of the file that a line would have written, if it is a new one.
    fn note_unwritten(&mut self, alloc: A, note: &Note<A>) {
        let Some(name) = note.unwritten_name() else {
            return;
        };
        if self
            .unwritten
            .as_slice()
            .iter()
            .any(|other| other.as_slice() == name)
        {
            return;
        }
        let mut copy = Text::new(alloc);
        copy.add(name);
        let _ = self.unwritten.push(Bytes::from_vec(copy.into_vec()));
    }

    /// Adds which files weren't written, since none was to be.
    pub fn add_unwritten(&self, text: &mut Text<A>) {
        if self.unwritten.as_slice().is_empty() {
            return;
        }
        text.add(b"--no-save: not written:");
        for name in self.unwritten.as_slice() {
            text.add(b" ");
            text.add(name.as_slice());
        }
        text.add(b"\n");
    }
}
