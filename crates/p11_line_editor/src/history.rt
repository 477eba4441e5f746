// The lines that were done before.
ghost use Rattle.std.specs.Prelude.{◌≡◌, ◌<◌, ◌+◌, ◌^◌, length, slice_get, option_map, IfSome, OnOk, OnErr};

use std::alloc::{AllocError, Allocator, Global};
use std::collections::VecDeque;
use std::marker::Model;

/// The most lines that are kept (decimal).
const MOST_LINES: usize = 500;

/// A line that was done. Clauses see its bytes.
#[derive(Drop)]
struct PastLine<A: Allocator> {
    bytes: Vec<u8, A>,
}

impl<A: Allocator> Model for PastLine<A> {
    ghost use Rattle.std.specs.Prelude.{ℕ, List};

    ghost Value = { List ℕ };

    ghost view = { λ l. l.bytes.items };
}

impl<A: Allocator> PastLine<A> {
    fn as_slice(&self) -> &[u8]
        ensures { result.now ≡ self.now }
    {
        self.bytes.as_slice()
    }
}

/// The lines that were done, the newest first, at most 500. Clauses see their list.
#[derive(Drop)]
pub struct History<A: Allocator = Global> {
    lines: VecDeque<PastLine<A>, A>,
}

impl<A: Allocator> Model for History<A> {
    ghost use Rattle.std.specs.Prelude.{ℕ, List};

    ghost Value = { List (List ℕ) };

    ghost view = { λ h. h.lines.items };
}

impl<A: Allocator> History<A> {
    ghost use Rattle.std.specs.Prelude.{[]};
    ghost use Rattle.p11_line_editor.specs.History.{begins_with_line, remembered};

    /// No line was done.
    pub fn new(alloc: A) -> Self
        ensures { result ≡ [] }
    {
        History {
            lines: VecDeque::new(alloc),
        }
    }

    /// How many lines there are.
    pub fn len(&self) -> usize
        ensures { result ≡ length self.now }
    {
        self.lines.len()
    }

    /// The line so many back; the newest is 0 back.
    pub fn get(&self, back: usize) -> Option<&[u8]>
        ensures line { option_map (λ line. line.now) result ≡ slice_get self.now back }
        ensures small { IfSome result (λ _. back + 1 < 2 ^ 64) }
    {
        let _count = self.lines.len();
        match self.lines.get(back) {
            Some(line) => Some(line.as_slice()),
            None => None,
        }
    }

    /// Whether a line is empty or the newest one.
    fn is_newest(&self, line: &[u8]) -> bool
        ensures { result ≡ begins_with_line line.now self.now }
    {
        if line.is_empty() {
            return true;
        }
        match self.get(0) {
            Some(newest) => newest == line,
            None => false,
        }
    }

    /// Keeps a line, unless it is empty or the newest one. The oldest of more than 500 goes.
    ///
    /// Where memory isn't found, nothing has changed.
    #[tactic(auto, unfolding(crate::specs::History::remembered))]
    pub fn remember(&mut self, alloc: A, line: &[u8]) -> Result<(), AllocError>
        ensures ok { OnOk result (self.new ≡ remembered line.now self.old) }
        ensures err { OnErr result (self.new ≡ self.old) }
    {
        if self.is_newest(line) {
            return Ok(());
        }
        let mut copy = Vec::new(alloc);
        copy.extend_from_slice(line)?;
        self.lines.push_front(PastLine { bytes: copy })?;
        self.lines.truncate(MOST_LINES);
        Ok(())
    }
}
