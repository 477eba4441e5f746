// The line that is typed, with the cursor in it.
ghost use Rattle.std.specs.Prelude.{◌≡◌, ◌≤◌, [], length};

use crate::stock::{Buffer, joined};
use std::marker::Model;

/// The line that is typed. The cursor lies in it, and it has at most 4,096 bytes.
#[derive(Drop)]
pub struct EditedLine {
    bytes: Buffer,
    at: usize,
}

impl Model for EditedLine {
    ghost use Rattle.std.specs.Prelude.{◌≤◌, length};
    ghost use Rattle.p11_line_editor.specs.Line.{Line};

    ghost Value = { Line };

    ghost view = { λ l. record { text = l.bytes.items; cursor = l.at } };

    ghost invariant = { λ l. l.at ≤ length l.bytes.items };
}

impl EditedLine {
    ghost use Rattle.p11_line_editor.specs.Line.{replaced, moved};

    /// An empty line.
    pub(crate) fn new() -> Self
        ensures { result ≡ record { text = []; cursor = 0 } }
    {
        EditedLine {
            bytes: Buffer::new(),
            at: 0,
        }
    }

    /// The text, and that the cursor lies in it.
    pub(crate) fn text(&self) -> &[u8]
        ensures value { result.now ≡ self.now.text }
        ensures most { length result.now ≤ 4096 }
        ensures cursor { self.now.cursor ≤ length result.now }
    {
        let _at = self.at;
        self.bytes.as_slice()
    }

    /// How many characters are before the cursor.
    pub(crate) fn cursor(&self) -> usize
        ensures value { result ≡ self.now.cursor }
        ensures within { result ≤ length self.now.text }
    {
        self.at
    }

    /// Sets the cursor.
    pub(crate) fn set_cursor(&mut self, place: usize)
        requires { place ≤ length self.old.text }
        ensures { self.new ≡ moved place self.old }
    {
        self.at = place;
    }

    /// Puts bytes in place of the text between two places, and the cursor behind them; whether there was room.
    #[tactic(auto, unfolding(crate::specs::Line::replaced))]
    pub(crate) fn replace(&mut self, from: usize, to: usize, bytes: &[u8]) -> bool
        requires order { from ≤ to }
        requires within { to ≤ length self.old.text }
        ensures { replaced from to bytes.now self.old ≡ (self.new, result) }
    {
        let text = self.bytes.as_slice();
        let Some(whole) = joined(&text[..from], bytes, &text[to..]) else {
            return false;
        };
        self.bytes = whole;
        self.at = from + bytes.len();
        true
    }

    /// Puts another text there, with the cursor at its end.
    pub(crate) fn set_text(&mut self, text: &[u8])
        requires { length text.now ≤ 4096 }
        ensures { self.new ≡ record { text = text.now; cursor = length text.now } }
    {
        let mut bytes = Buffer::new();
        let _ = bytes.try_extend_from_slice(text);
        self.bytes = bytes;
        self.at = text.len();
    }
}
