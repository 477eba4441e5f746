// Completing the word at the cursor.
ghost use Rattle.std.specs.Prelude.{◌≡◌, map};

use crate::editor::Editor;
use crate::outcome::Outcome;
use crate::shared::common;

impl Editor {
    ghost use Rattle.p11_line_editor.specs.Completion.{completed, completed_by};

    /// Puts in what all candidates have in common beyond the word at the cursor. Each is a whole word that begins with it.
    ///
    /// `Bell` where there is none, or no room; `List` where they have nothing in common beyond it.
    pub fn complete(&mut self, candidates: &[&[u8]]) -> Outcome
        ensures { completed (map (λ word. word.now) candidates.now) self.old ≡ (self.new, result) }
    {
        if candidates.is_empty() {
            return Outcome::Bell;
        }
        let shared = common(candidates[0], &candidates[1..]);
        self.complete_by(shared)
    }

    /// Puts in what is beyond the word at the cursor.
    #[tactic(auto, unfolding(crate::specs::Completion::completed_by))]
    fn complete_by(&mut self, shared: &[u8]) -> Outcome
        ensures { completed_by shared.now self.old ≡ (self.new, result) }
    {
        let known = self.word().len();
        if shared.len() <= known {
            return Outcome::List;
        }
        self.put(&shared[known..])
    }
}
