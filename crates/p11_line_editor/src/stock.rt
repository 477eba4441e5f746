// Bytes that are kept aside, at most as many as a line has.
ghost use Rattle.std.specs.Prelude.{◌≡◌, ◌≤◌, ◌<◌, ◌-◌, [], ◌∷◌, ◌++◌, take, length, MatchOption};

use arrayvec::ArrayVec;
use std::marker::Model;

/// The most bytes of a line (decimal), which are those that the language reads.
pub(crate) const MOST_BYTES: usize = 4096;

/// The bytes of a line at most.
pub(crate) type Buffer = ArrayVec<u8, 4096>;

/// Bytes that are kept aside, at most 4,096. Clauses see their list.
#[derive(Drop)]
pub struct Stock {
    bytes: Buffer,
}

impl Model for Stock {
    ghost use Rattle.std.specs.Prelude.{ℕ, List};

    ghost Value = { List ℕ };

    ghost view = { λ s. s.bytes.items };
}

impl Stock {
    pub(crate) fn new() -> Self
        ensures { result ≡ [] }
    {
        Stock {
            bytes: Buffer::new(),
        }
    }

    pub(crate) fn as_slice(&self) -> &[u8]
        ensures value { result.now ≡ self.now }
        ensures most { length result.now ≤ 4096 }
    {
        self.bytes.as_slice()
    }

    pub(crate) fn clear(&mut self)
        ensures { self.new ≡ [] }
    {
        self.bytes.clear();
    }

    /// Keeps these in place of what it has.
    pub(crate) fn keep(&mut self, bytes: &[u8])
        requires { length bytes.now ≤ 4096 }
        ensures { self.new ≡ bytes.now }
    {
        let mut kept = Buffer::new();
        let _ = kept.try_extend_from_slice(bytes);
        self.bytes = kept;
    }

    /// What it has with one byte more, where there is room.
    pub(crate) fn with(&self, byte: u8) -> Option<Stock>
        ensures { MatchOption result (4096 < length (self.now ++ byte ∷ [])) (λ more. more ≡ self.now ++ byte ∷ []) }
    {
        let bytes = joined(self.bytes.as_slice(), &[byte], &[])?;
        Some(Stock { bytes })
    }

    /// Drops the last byte, if there is one.
    pub(crate) fn drop_last(&mut self)
        ensures { self.new ≡ take (length self.old - 1) self.old }
    {
        let _ = self.bytes.pop();
    }
}

/// Three texts one after the other, where they are no longer than a line.
pub(crate) fn joined(front: &[u8], middle: &[u8], back: &[u8]) -> Option<Buffer>
    ensures { MatchOption result (4096 < length (front.now ++ middle.now ++ back.now))
        (λ whole. (whole.items ≡ front.now ++ middle.now ++ back.now) × (length whole.items ≤ 4096)) }
{
    let mut whole = Buffer::new();
    if whole.try_extend_from_slice(front).is_err() {
        return None;
    }
    if whole.try_extend_from_slice(middle).is_err() {
        return None;
    }
    if whole.try_extend_from_slice(back).is_err() {
        return None;
    }
    Some(whole)
}
