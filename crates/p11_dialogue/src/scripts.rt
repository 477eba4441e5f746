// Where a script's lines stand, of which contracts see nothing: it is told.
use crate::note::Note;
use crate::text::Text;
use p11_lines::{Answer, Bytes, Fault};
use std::alloc::Allocator;

/// The script whose lines are done, and what became of them.
pub(crate) struct Script<A: Allocator> {
    name: Bytes<A>,
    /// The number of the last line that was begun, from 1 on.
    line: u64,
    /// Whether that line is the last that was begun at all.
    is_last: bool,
    /// A front of it.
    shown: Vec<u8, A>,
    /// How many were refused, and the number of the first.
    refused: u64,
    first: u64,
}

/// The most bytes of a line that are shown with its place.
const MOST_SHOWN: usize = 200;

impl<A: Allocator> Drop for Script<A> {
    fn drop(self) {
        let Script {
            name,
            line: _,
            is_last: _,
            shown: _,
            refused: _,
            first: _,
        } = self;
    }
}

impl<A: Allocator> Script<A> {
    /// No line was begun.
    pub(crate) fn of(alloc: A, name: Bytes<A>) -> Self {
        Script {
            name,
            line: 0,
            is_last: false,
            shown: Vec::new(alloc),
            refused: 0,
            first: 0,
        }
    }

    /// Its next line is begun.
    pub(crate) fn begin_line(&mut self, line: &[u8]) {
        self.line = self.line.saturating_add(1);
        self.is_last = true;
        self.shown.clear();
        let _ = self
            .shown
            .extend_from_slice(&line[..line.len().min(MOST_SHOWN)]);
        if line.len() > MOST_SHOWN {
            let _ = self.shown.extend_from_slice(b" ..");
        }
    }

    /// Another line is begun.
    pub(crate) fn leave_line(&mut self) {
        self.is_last = false;
    }

    /// Adds what is said behind an answer at the console: of a script's line also where it stands.
    pub(crate) fn add_note(&mut self, text: &mut Text<A>, answer: &Answer<A>, note: &Note<A>) {
        self.count(answer);
        if self.is_unsaid(note) {
            return;
        }
        text.add(b"  ");
        if self.is_last {
            self.add_place(text, self.line);
            text.add(b": ");
            text.add_clean(self.shown.as_slice());
            text.add(b": ");
        }
        text.add(note.as_slice());
        text.add(b".\n");
    }

    /// Adds what is said of a line of a script that is all, apart from the answers.
    pub(crate) fn add_remark(&mut self, text: &mut Text<A>, answer: &Answer<A>, note: &Note<A>) {
        self.count(answer);
        if self.is_unsaid(note) {
            return;
        }
        self.add_place(text, self.line);
        text.add(b": ");
        text.add_clean(self.shown.as_slice());
        text.add(b": ");
        if let Answer::Refused(fault) = answer {
            add_fault(text, *fault);
        }
        text.add(note.as_slice());
        text.add(b"\n");
    }

    /// Whether nothing is said. Of a file that isn't written the end tells, where a script would have written it.
    fn is_unsaid(&self, note: &Note<A>) -> bool {
        note.as_slice().is_empty() || self.is_last && note.unwritten_name().is_some()
    }

    /// Counts an answer, if it refuses one of its lines.
    fn count(&mut self, answer: &Answer<A>) {
        if let Answer::Refused(_) = answer {
            if self.is_last {
                if self.refused == 0 {
                    self.first = self.line;
                }
                self.refused = self.refused.saturating_add(1);
            }
        }
    }

    /// Adds how many lines were refused, once.
    pub(crate) fn end(&mut self, text: &mut Text<A>) {
        if self.refused == 0 {
            return;
        }
        text.add_number(self.refused);
        if self.refused == 1 {
            text.add(b" line refused: ");
        } else {
            text.add(b" lines refused, the first at ");
        }
        self.add_place(text, self.first);
        text.add(b"\n");
        self.refused = 0;
    }

    fn add_place(&self, text: &mut Text<A>, line: u64) {
        text.add(self.name.as_slice());
        text.add(b":");
        text.add_number(line);
    }
}

/// A refusal as an answer has it.
fn add_fault<A: Allocator>(text: &mut Text<A>, fault: Fault) {
    text.add(b"? ");
    text.add_number(u64::from(fault.number()));
    text.add(b" ");
    text.add(fault.name().as_bytes());
    text.add(b": ");
}
