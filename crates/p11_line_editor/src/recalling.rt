// Lines of the history, by their order and by what they have in them.
ghost use Rattle.std.specs.Prelude.{◌≡◌, ◌+◌, ◌-◌, ◌≤◌, ◌∷◌, ◌++◌, [], option_map, slice_get, take, length, true, false};
ghost use Rattle.p11_line_editor.specs.declared.outcome.Outcome.TheVariants as outcome;

use crate::editor::Editor;
use crate::finding::found_from;
use crate::history::History;
use crate::key::Key;
use crate::outcome::Outcome;
use crate::stock::{MOST_BYTES, Stock};
use std::alloc::Allocator;

impl Editor {
    ghost use Rattle.p11_line_editor.specs.History.{found_from};
    ghost use Rattle.p11_line_editor.specs.Editing.{typed, draft_of, shown, recalled, below, found, looked_for, left};

    /// Keeps the line that was typed, unless one of the history stands in its place.
    fn keep_draft(&mut self)
        ensures { self.new ≡ record self.old { draft = draft_of self.old } }
    {
        if self.back == 0 {
            self.draft.keep(self.line.text());
        }
    }

    /// Puts a text that is so many lines back in the line's place.
    #[tactic(auto, unfolding(crate::specs::Editing::shown))]
    fn show(&mut self, text: &[u8], back: usize) -> Outcome
        ensures { shown text.now back self.old ≡ (self.new, result) }
    {
        if text.len() > MOST_BYTES {
            return Outcome::Bell;
        }
        self.keep_draft();
        self.line.set_text(text);
        self.back = back;
        Outcome::Changed
    }

    /// Puts a line of the history in the line's place.
    fn recall<A: Allocator>(&mut self, history: &History<A>, index: usize) -> Outcome
        ensures { recalled (slice_get history.now index) (index + 1) self.old ≡ (self.new, result) }
    {
        match history.get(index) {
            Some(text) => self.show(text, index + 1),
            None => Outcome::Bell,
        }
    }

    /// The line before the one that stands there.
    pub(crate) fn go_up<A: Allocator>(&mut self, history: &History<A>) -> Outcome
        ensures { recalled (slice_get history.now self.old.back) (self.old.back + 1) self.old ≡ (self.new, result) }
    {
        self.recall(history, self.back)
    }

    /// Puts the line that was typed back.
    fn show_draft(&mut self) -> Outcome
        ensures { shown self.old.draft 0 self.old ≡ (self.new, result) }
    {
        let mut text = Stock::new();
        text.keep(self.draft.as_slice());
        self.show(text.as_slice(), 0)
    }

    /// The line after the one that stands there, or the one that was typed.
    pub(crate) fn go_down<A: Allocator>(&mut self, history: &History<A>) -> Outcome
        ensures { recalled (below history.now self.old) (self.old.back - 1) self.old ≡ (self.new, result) }
    {
        match self.back {
            0 => Outcome::Bell,
            1 => self.show_draft(),
            back => self.recall(history, back - 2),
        }
    }

    // ---- the search

    pub(crate) fn begin_search(&mut self) -> Outcome
        ensures part { self.new ≡ record self.old { is_searching = true; part = [] } }
        ensures outcome { result ≡ outcome.Changed }
    {
        self.is_searching = true;
        self.part.clear();
        Outcome::Changed
    }

    /// Looks for one character more, from the line that stands there on.
    pub(crate) fn look_for<A: Allocator>(&mut self, byte: u8, history: &History<A>) -> Outcome
        ensures { looked_for byte history.now self.old ≡ (self.new, result) }
    {
        let Some(part) = self.part.with(byte) else {
            return Outcome::Bell;
        };
        let Some(index) = found_from(history, part.as_slice(), self.back.saturating_sub(1)) else {
            return Outcome::Bell;
        };
        self.part = part;
        self.recall(history, index)
    }

    /// Looks for the same before the line that stands there.
    pub(crate) fn look_further<A: Allocator>(&mut self, history: &History<A>) -> Outcome
        ensures { found self.old.part (found_from self.old.part self.old.back history.now) history.now self.old
            ≡ (self.new, result) }
    {
        let Some(index) = found_from(history, self.part.as_slice(), self.back) else {
            return Outcome::Bell;
        };
        self.recall(history, index)
    }

    /// Takes the last character off what is looked for.
    pub(crate) fn shorten(&mut self) -> Outcome
        ensures part { self.new ≡ record self.old { part = take (length self.old.part - 1) self.old.part } }
        ensures outcome { result ≡ outcome.Changed }
    {
        self.part.drop_last();
        Outcome::Changed
    }

    /// Leaves the search, and puts the line back that was typed.
    pub(crate) fn leave_search(&mut self) -> Outcome
        ensures { left self.old ≡ (self.new, result) }
    {
        self.is_searching = false;
        if self.back == 0 {
            return Outcome::Changed;
        }
        self.show_draft()
    }

    /// Leaves the search by a key that does what it does.
    pub(crate) fn end_search<A: Allocator>(&mut self, key: Key, history: &History<A>) -> Outcome
        ensures { typed key history.now (record self.old { is_searching = false }) ≡ (self.new, result) }
    {
        self.is_searching = false;
        self.type_key(key, history)
    }
}
