// What keys do to the line.
ghost use Rattle.std.specs.Prelude.{◌≡◌, ◌≤◌, ◌+◌, ◌-◌, [], min, length, false};
ghost use Rattle.p11_line_editor.specs.declared.outcome.Outcome.TheVariants as outcome;

use crate::history::History;
use crate::key::Key;
use crate::line::EditedLine;
use crate::outcome::{Outcome, told, told_of};
use crate::stock::Stock;
use crate::words::{blanks_start, last_word_start, word_start};
use std::alloc::Allocator;

/// A line that is typed, with what was cut and what is looked for.
#[derive(Drop)]
pub struct Editor {
    pub(crate) line: EditedLine,
    /// What was cut last.
    pub(crate) cut: Stock,
    /// The line that was typed, while one of the history stands in its place.
    pub(crate) draft: Stock,
    /// How many lines back the one is that stands there; 0: it is the typed one.
    pub(crate) back: usize,
    pub(crate) is_searching: bool,
    /// What is looked for in the history.
    pub(crate) part: Stock,
}

impl Editor {
    ghost use Rattle.p11_line_editor.specs.Line.{replaced, is_first, last_word_start};
    ghost use Rattle.p11_line_editor.specs.Editing.{pressed, typed, searched, begun, empty_line, edited, put, taken};
    ghost use Rattle.p11_line_editor.specs.Editing.{cut_away, at_place, character, delete, end_of_input};
    ghost use Rattle.p11_line_editor.specs.Completion.{word_of};

    /// An empty line, with nothing cut and nothing looked for.
    pub fn new() -> Self
        ensures { result ≡ record { line = empty_line; cut = []; draft = []; back = 0; is_searching = false; part = [] } }
    {
        Editor {
            line: EditedLine::new(),
            cut: Stock::new(),
            draft: Stock::new(),
            back: 0,
            is_searching: false,
            part: Stock::new(),
        }
    }

    /// Begins a new line. What was cut stays.
    pub fn begin(&mut self)
        ensures { self.new ≡ begun self.old }
    {
        self.line = EditedLine::new();
        self.back = 0;
        self.is_searching = false;
    }

    /// The line, at most 4,096 bytes (decimal).
    pub fn text(&self) -> &[u8]
        ensures text { result.now ≡ self.now.line.text }
        ensures most { length result.now ≤ 4096 }
    {
        self.line.text()
    }

    /// How many characters are before the cursor, which lies in the line.
    pub fn cursor(&self) -> usize
        ensures cursor { result ≡ self.now.line.cursor }
        ensures within { result ≤ length self.now.line.text }
    {
        self.line.cursor()
    }

    /// The word that ends at the cursor.
    pub fn word(&self) -> &[u8]
        ensures { result.now ≡ word_of self.now.line }
    {
        let text = self.line.text();
        let cursor = self.line.cursor();
        let start = word_start(text, cursor);
        &text[start..cursor]
    }

    /// Whether nothing but blanks stands before that word.
    pub fn is_first_word(&self) -> bool
        ensures { result ≡ is_first self.now.line }
    {
        let text = self.line.text();
        blanks_start(text, word_start(text, self.line.cursor())) == 0
    }

    /// Does what a key says. The history isn't changed.
    #[tactic(auto, unfolding(crate::specs::Editing::pressed))]
    pub fn press<A: Allocator>(&mut self, key: Key, history: &History<A>) -> Outcome
        ensures { pressed key history.now self.old ≡ (self.new, result) }
    {
        if self.is_searching {
            self.press_in_search(key, history)
        } else {
            self.type_key(key, history)
        }
    }

    /// A key where nothing is looked for.
    #[tactic(auto, unfolding(crate::specs::Editing::typed))]
    pub(crate) fn type_key<A: Allocator>(&mut self, key: Key, history: &History<A>) -> Outcome
        ensures { typed key history.now self.old ≡ (self.new, result) }
    {
        match key {
            Key::Character(byte) => self.character(byte),
            Key::Left => self.go_left(),
            Key::Right => self.go_right(),
            Key::Home => self.go_to_start(),
            Key::End => self.go_to_end(),
            Key::Up => self.go_up(history),
            Key::Down => self.go_down(history),
            Key::Back => self.rub_out(),
            Key::Delete => self.delete(),
            Key::CutEnd => self.cut_end(),
            Key::CutFront => self.cut_front(),
            Key::CutWord => self.cut_word(),
            Key::Yank => self.yank(),
            Key::Screen => Outcome::Cleared,
            Key::Search => self.begin_search(),
            Key::Leave => Outcome::Bell,
            Key::Tab => Outcome::Complete,
            Key::Enter => Outcome::Done,
            Key::Interrupt => self.give_up(),
            Key::EndOfInput => self.end_of_input(),
            Key::Refused => Outcome::Bell,
        }
    }

    /// A key in a search.
    #[tactic(auto, unfolding(crate::specs::Editing::searched))]
    fn press_in_search<A: Allocator>(&mut self, key: Key, history: &History<A>) -> Outcome
        ensures { searched key history.now self.old ≡ (self.new, result) }
    {
        match key {
            Key::Character(byte) => self.look_for(byte, history),
            Key::Back => self.shorten(),
            Key::Search => self.look_further(history),
            Key::Leave => self.leave_search(),
            _ => self.end_search(key, history),
        }
    }

    // ---- the line

    /// Puts bytes in place of the text between two places.
    pub(crate) fn edit(&mut self, from: usize, to: usize, bytes: &[u8]) -> Outcome
        requires order { from ≤ to }
        requires within { to ≤ length self.old.line.text }
        ensures { edited (replaced from to bytes.now self.old.line) self.old ≡ (self.new, result) }
    {
        let is_done = self.line.replace(from, to, bytes);
        told(is_done)
    }

    /// Puts bytes in at the cursor.
    pub(crate) fn put(&mut self, bytes: &[u8]) -> Outcome
        ensures { put bytes.now self.old ≡ (self.new, result) }
    {
        let cursor = self.line.cursor();
        self.edit(cursor, cursor, bytes)
    }

    /// Cuts the text between two places.
    fn cut_away(&mut self, from: usize, to: usize) -> Outcome
        requires order { from ≤ to }
        requires within { to ≤ length self.old.line.text }
        ensures { cut_away from to self.old ≡ (self.new, result) }
    {
        if from == to {
            return Outcome::Bell;
        }
        let text = self.line.text();
        self.cut.keep(&text[from..to]);
        let _ = self.line.replace(from, to, &[]);
        Outcome::Changed
    }

    /// Sets the cursor.
    fn go(&mut self, place: usize) -> Outcome
        requires { place ≤ length self.old.line.text }
        ensures { at_place place self.old ≡ (self.new, result) }
    {
        self.line.set_cursor(place);
        Outcome::Changed
    }

    fn character(&mut self, byte: u8) -> Outcome
        ensures { character byte self.old ≡ (self.new, result) }
    {
        let cursor = self.line.cursor();
        let is_last = cursor == self.line.text().len();
        let is_done = self.line.replace(cursor, cursor, &[byte]);
        told_of(byte, is_last, is_done)
    }

    fn go_left(&mut self) -> Outcome
        ensures { at_place (self.old.line.cursor - 1) self.old ≡ (self.new, result) }
    {
        let place = self.line.cursor().saturating_sub(1);
        self.go(place)
    }

    fn go_right(&mut self) -> Outcome
        ensures { at_place (min (self.old.line.cursor + 1) (length self.old.line.text)) self.old ≡ (self.new, result) }
    {
        let place = self.next_place();
        self.go(place)
    }

    /// The place behind the character under the cursor, or the end.
    fn next_place(&self) -> usize
        ensures value { result ≡ min (self.now.line.cursor + 1) (length self.now.line.text) }
        ensures order { self.now.line.cursor ≤ result }
        ensures within { result ≤ length self.now.line.text }
    {
        let end = self.line.text().len();
        (self.line.cursor() + 1).min(end)
    }

    fn go_to_start(&mut self) -> Outcome
        ensures { at_place 0 self.old ≡ (self.new, result) }
    {
        self.go(0)
    }

    fn go_to_end(&mut self) -> Outcome
        ensures { at_place (length self.old.line.text) self.old ≡ (self.new, result) }
    {
        let place = self.line.text().len();
        self.go(place)
    }

    fn rub_out(&mut self) -> Outcome
        ensures { taken (self.old.line.cursor - 1) self.old.line.cursor self.old ≡ (self.new, result) }
    {
        let cursor = self.line.cursor();
        self.edit(cursor.saturating_sub(1), cursor, &[])
    }

    fn delete(&mut self) -> Outcome
        ensures { delete self.old ≡ (self.new, result) }
    {
        let cursor = self.line.cursor();
        let next = self.next_place();
        self.edit(cursor, next, &[])
    }

    fn cut_end(&mut self) -> Outcome
        ensures { cut_away self.old.line.cursor (length self.old.line.text) self.old ≡ (self.new, result) }
    {
        let cursor = self.line.cursor();
        let end = self.line.text().len();
        self.cut_away(cursor, end)
    }

    fn cut_front(&mut self) -> Outcome
        ensures { cut_away 0 self.old.line.cursor self.old ≡ (self.new, result) }
    {
        let cursor = self.line.cursor();
        self.cut_away(0, cursor)
    }

    fn cut_word(&mut self) -> Outcome
        ensures { cut_away (last_word_start self.old.line.text self.old.line.cursor) self.old.line.cursor self.old
            ≡ (self.new, result) }
    {
        let cursor = self.line.cursor();
        let start = last_word_start(self.line.text(), cursor);
        self.cut_away(start, cursor)
    }

    fn yank(&mut self) -> Outcome
        ensures { put self.old.cut self.old ≡ (self.new, result) }
    {
        let cursor = self.line.cursor();
        let is_done = self.line.replace(cursor, cursor, self.cut.as_slice());
        told(is_done)
    }

    fn give_up(&mut self) -> Outcome
        ensures line { self.new ≡ record self.old { line = empty_line; back = 0 } }
        ensures outcome { result ≡ outcome.Interrupted }
    {
        self.line = EditedLine::new();
        self.back = 0;
        Outcome::Interrupted
    }

    fn end_of_input(&mut self) -> Outcome
        ensures { end_of_input self.old ≡ (self.new, result) }
    {
        if self.line.text().is_empty() {
            return Outcome::Ended;
        }
        self.delete()
    }
}
