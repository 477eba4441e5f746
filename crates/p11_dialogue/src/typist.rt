// Who types lines: the keys so far, the line, and the lines before it.
ghost use Rattle.std.specs.Prelude.{◌≡◌, map, OnOk, OnErr, IfOk};
ghost use Rattle.p11_dialogue.specs.Typing.{by_key, taken, fresh, rested, line_of, kept_line, past_of, outcome_activity, CompletedBy};
ghost use Rattle.p11_line_editor.specs.History.{remembered};

use crate::activity::Activity;
use crate::line_kind::verb_and_rest;
use p11_line_editor::{Decoder, Editor, History, Key, Outcome};
use p11_lines::NoMemory;
use std::alloc::{AllocError, Allocator, Global};

/// Who types lines: the keys so far, the line, and the lines before it.
pub struct Typist<A: Allocator = Global> {
    pub decoder: Decoder,
    pub editor: Editor,
    pub history: History<A>,
    /// Whether a line has just ended by CR: an LF right behind it, as in a text that is pasted, is no key.
    pub has_returned: bool,
}

impl<A: Allocator> Drop for Typist<A> {
    fn drop(self) {
        let Typist {
            decoder: _,
            editor,
            history,
            has_returned: _,
        } = self;
    }
}

impl<A: Allocator> Typist<A> {
    /// Nothing is typed yet.
    #[tactic(auto, unfolding(crate::specs::Typing::fresh))]
    pub fn new(alloc: A) -> Self
        ensures { result ≡ fresh }
    {
        Typist {
            decoder: Decoder::new(),
            editor: Editor::new(),
            history: History::new(alloc),
            has_returned: false,
        }
    }

    /// Takes a byte of the keyboard: what the key that it ends has led to.
    #[tactic(auto, unfolding(crate::specs::Typing::taken))]
    pub fn take(&mut self, byte: u8) -> Option<Outcome>
        ensures { taken byte self.old ≡ (self.new, result) }
    {
        let is_end = byte == b'\n' && self.has_returned;
        self.has_returned = byte == b'\r';
        if is_end {
            return None;
        }
        let key = self.decoder.key(byte);
        self.press(key)
    }

    fn press(&mut self, key: Option<Key>) -> Option<Outcome>
        ensures { by_key self.old key ≡ (self.new, result) }
    {
        match key {
            Some(key) => Some(self.editor.press(key, &self.history)),
            None => None,
        }
    }

    /// Nothing more is pressed for now.
    #[tactic(auto, unfolding(crate::specs::Typing::rested))]
    pub fn pause(&mut self)
        ensures { self.new ≡ rested self.old }
    {
        self.decoder.pause();
        self.has_returned = false;
    }

    /// Completes the word at the cursor by these. A space follows the only one, unless it is a folder.
    pub fn complete(&mut self, words: &[&[u8]]) -> Outcome
        ensures { CompletedBy (map (λ word. word.now) words.now) self.old self.new }
    {
        let outcome = self.editor.complete(words);
        if words.len() != 1 || words[0].last() == Some(&b'/') {
            return outcome;
        }
        let _ = self.editor.press(Key::Character(b' '), &self.history);
        Outcome::Changed
    }

    /// Begins a line.
    pub fn begin(&mut self)
        ensures { self.new ≡ line_of self.old }
    {
        self.editor.begin();
    }

    /// A line of an earlier dialogue.
    pub fn remember(&mut self, alloc: A, line: &[u8]) -> Result<(), AllocError>
        ensures ok { OnOk result (self.new ≡ record self.old { history = remembered line.now self.old.history }) }
        ensures err { OnErr result (self.new ≡ self.old) }
    {
        self.history.remember(alloc, line)
    }

    /// The text of the line that is ended for the history's file, if it has a word.
    #[tactic(auto, unfolding(crate::specs::Typing::past_of))]
    pub fn past_text(&self, alloc: A) -> Result<Vec<u8, A>, NoMemory>
        ensures { IfOk result (λ text. text.items ≡ past_of self.now) }
    {
        let mut text = Vec::new(alloc);
        if verb_and_rest(self.editor.text()).0.is_empty() {
            return Ok(text);
        }
        text.extend_from_slice(self.editor.text())?;
        text.extend_from_slice(b"\n")?;
        Ok(text)
    }

    /// Keeps the line that is ended, if it has a word.
    #[tactic(auto, unfolding(crate::specs::Typing::kept_line))]
    pub fn keep(&mut self, alloc: A) -> Result<(), AllocError>
        ensures ok { OnOk result (self.new ≡ kept_line self.old) }
        ensures err { OnErr result (self.new ≡ self.old) }
    {
        if verb_and_rest(self.editor.text()).0.is_empty() {
            return Ok(());
        }
        self.history.remember(alloc, self.editor.text())
    }
}

/// What comes under way by what a key has led to.
pub fn outcome_activity<A: Allocator>(outcome: Option<Outcome>) -> Activity<A>
    ensures { result ≡ outcome_activity outcome }
{
    match outcome {
        Some(Outcome::Done) => Activity::Entered,
        Some(Outcome::Complete) => Activity::Naming,
        Some(Outcome::Ended) => Activity::Leaving,
        _ => Activity::Typing,
    }
}
