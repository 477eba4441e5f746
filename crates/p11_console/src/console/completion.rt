// A word that is completed, and the line as it is shown.
ghost use Rattle.std.specs.Prelude.{◌≡◌};
ghost use Rattle.p11_line_editor.specs.Completion.{word_of};
ghost use Rattle.p11_console.specs.Files.{Names};
ghost use Rattle.p11_dialogue.specs.Said.{Says};
ghost use Rattle.p11_console.specs.Steps.{Completes};

use super::Console;
use p11_dialogue::{Activity, PROMPT, Text, candidates, list, word_kind_at};
use p11_line_editor::Outcome;
use std::alloc::Allocator;

impl<A: Allocator + Copy> Console<A> {
    /// The host gives names of files that may stand at the cursor, of a folder with `/` behind it. Where none are wanted
    /// nothing is done.
    pub fn names(&mut self, alloc: A, names: &[&[u8]])
        ensures { Names self.old.activity self.old self.new }
    {
        if let Activity::Naming = self.activity.get() {
            self.complete(alloc, names);
            self.activity.set(Activity::Typing);
        }
    }

    /// The word at the cursor, with which the names have to begin.
    pub fn front(&self) -> &[u8]
        ensures { result.now ≡ word_of self.now.typist.editor.line }
    {
        self.typist.editor.word()
    }

    /// Completes the word at the cursor, by names of files or other words.
    #[tactic(auto, unfolding(crate::specs::Steps::Completes))]
    pub(super) fn complete(&mut self, alloc: A, names: &[&[u8]])
        ensures { Completes self.old (record self.new { activity = Activity.Typing }) }
    {
        let kind = word_kind_at(&self.typist.editor);
        match candidates(alloc, kind, self.typist.editor.word(), names) {
            Ok(words) => self.complete_by(alloc, words.as_slice()),
            Err(_) => self.screen.say(b"\x07"),
        }
    }

    /// Completes the word at the cursor by some words that may stand there.
    fn complete_by(&mut self, alloc: A, words: &[&[u8]])
        ensures { Completes self.old (record self.new { activity = Activity.Typing }) }
    {
        let outcome = self.typist.complete(words);
        self.show_completed(alloc, outcome, words);
    }

    /// Shows the line after that, with a list of the words above it where several may stand there.
    fn show_completed(&mut self, alloc: A, outcome: Outcome, words: &[&[u8]])
        ensures { Says self.old.screen self.new.screen × (self.new ≡ record self.old { screen = self.new.screen }) }
    {
        let mut said = Text::new(alloc);
        let mut shown = outcome;
        if let Outcome::List = outcome {
            list(&mut said, self.columns, words);
            shown = Outcome::Changed;
        }
        let picture = self.typist.editor.picture(shown, PROMPT, self.columns);
        said.add(picture.as_slice());
        self.screen.say(said.as_slice());
    }

    /// Shows the line.
    pub(super) fn show(&mut self, outcome: Outcome)
        ensures { Says self.old.screen self.new.screen × (self.new ≡ record self.old { screen = self.new.screen }) }
    {
        let picture = self.typist.editor.picture(outcome, PROMPT, self.columns);
        self.screen.say(picture.as_slice());
    }
}
