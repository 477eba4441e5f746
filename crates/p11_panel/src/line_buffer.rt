//! The bytes of the line that a session is reading, up to the longest that a line may be.
ghost use Rattle.std.specs.Prelude.{◌≡◌, Some, [], option_copied};
ghost use Rattle.p11_panel.specs.Kept.Buffer.{pushed};

use std::marker::Model;

/// A line has 4,096 bytes at most, and may have a CR after them.
const MOST_KEPT: usize = 4097;

/// The line that is being read. A contract sees its bytes, or `None` once there are too many.
#[derive(Drop)]
pub(crate) struct LineBuffer {
    bytes: [u8; 4097],
    len: usize,
    is_long: bool,
}

impl Model for LineBuffer {
    ghost use Rattle.std.specs.Prelude.{◌≤◌, List, ℕ, Option, Some, None, if◌then◌else◌, take};

    ghost Value = { Option (List ℕ) };

    ghost view = { λ b. if b.is_long then None else Some (take b.len b.bytes) };

    ghost invariant = { λ b. b.len ≤ 4097 };
}

impl LineBuffer {
    /// No bytes.
    pub(crate) fn new() -> Self
        ensures { result ≡ Some [] }
    {
        LineBuffer {
            bytes: [0; 4097],
            len: 0,
            is_long: false,
        }
    }

    /// One more byte.
    pub(crate) fn push(&mut self, byte: u8)
        ensures { self.new ≡ pushed self.old byte }
    {
        if self.len < MOST_KEPT {
            self.bytes[self.len] = byte;
            self.len += 1;
        } else {
            self.is_long = true;
        }
    }

    /// The next line begins.
    pub(crate) fn clear(&mut self)
        ensures { self.new ≡ Some [] }
    {
        self.len = 0;
        self.is_long = false;
    }

    /// The bytes, unless there were too many.
    pub(crate) fn get(&self) -> Option<&[u8]>
        ensures { option_copied result ≡ self.now }
    {
        if self.is_long {
            return None;
        }
        Some(&self.bytes[..self.len])
    }
}
