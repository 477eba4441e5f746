// The picture of the editor.
ghost use Rattle.std.specs.Prelude.{◌≡◌, ◌++◌, take, codes};

use crate::editor::Editor;
use crate::outcome::Outcome;
use crate::picture::{Picture, part, picture_of};
use crate::stock::{Buffer, joined};

impl Editor {
    ghost use Rattle.p11_line_editor.specs.Screen.{picture, prompt_of};

    /// What the screen gets after an outcome: a bell, the character that was typed where it fits, or the row of the line.
    ///
    /// The row has `columns` columns, 10 at least and 500 at most, of which the prompt has half at most.
    pub fn picture(&self, outcome: Outcome, prompt: &[u8], columns: usize) -> Picture
        ensures { result.items ≡ picture outcome (prompt_of self.now prompt.now) columns self.now.line }
    {
        if !self.is_searching {
            return picture_of(outcome, prompt, columns, &self.line);
        }
        let prompt = self.search_prompt();
        picture_of(outcome, prompt.as_slice(), columns, &self.line)
    }

    /// The prompt in a search.
    fn search_prompt(&self) -> Buffer
        ensures { result.items ≡ codes "search " ++ take 250 self.now.part ++ codes ": " }
    {
        let looked_for = part(self.part.as_slice(), 0, 250);
        match joined(b"search ", looked_for, b": ") {
            Some(prompt) => prompt,
            None => Buffer::new(),
        }
    }
}
