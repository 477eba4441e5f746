// The data bytes of a tape, each with its address.
ghost use Rattle.std.specs.Prelude.{◌≡◌, ℕ, List};

use std::alloc::{Allocator, Global};
use std::marker::Model;

/// The data bytes of a tape, each behind the address that it is for, in tape order. Contracts see the list of
/// the pairs.
#[derive(Drop)]
pub struct TapeBytes<A: Allocator = Global> {
    items: Vec<(u16, u8), A>,
}

impl<A: Allocator> Model for TapeBytes<A> {
    ghost Value = { List (ℕ × ℕ) };

    ghost view = { λ b. b.items.items };
}

impl<A: Allocator> TapeBytes<A> {
    /// The pairs of a list, each a byte with its address. It takes no memory.
    pub fn from_vec(items: Vec<(u16, u8), A>) -> Self
        ensures { result ≡ items.items }
    {
        TapeBytes { items }
    }

    /// The pairs, each a byte with its address, to look at.
    pub fn as_slice(&self) -> &[(u16, u8)]
        ensures { result.now ≡ self.now }
    {
        self.items.as_slice()
    }

    /// The pairs as a list of their own. It takes no memory.
    pub fn into_vec(self) -> Vec<(u16, u8), A>
        ensures { result.items ≡ self }
    {
        let TapeBytes { items } = self;
        items
    }
}
