// Lists of words that clauses compare.
ghost use Rattle.std.specs.Prelude.{◌≡◌};

use std::alloc::{Allocator, Global};
use std::marker::Model;

/// A list of 16-bit words. Clauses see it as a list of numbers.
#[derive(Drop)]
pub struct Words<A: Allocator = Global> {
    items: Vec<u16, A>,
}

impl<A: Allocator> Model for Words<A> {
    ghost use Rattle.std.specs.Prelude.{List, ℕ};

    ghost Value = { List ℕ };

    ghost view = { λ w. w.items.items };
}

impl<A: Allocator> PartialEq for Words<A> {
    ghost use Rattle.std.proofs.Common.{rules};
    ghost use Rattle.std.specs.Prelude.{nat_eq};
    ghost use Rattle.std.specs.Cmp.Lexicographic.{pointwise};
    ghost use Rattle.std.specs.Cmp.Rules.{comparing};

    ghost eq = { pointwise nat_eq };

    ghost laws = { Prim.search (comparing, rules) };

    fn eq(&self, other: &Self) -> bool {
        self.as_slice() == other.as_slice()
    }
}

impl<A: Allocator> Eq for Words<A> {
    ghost use Rattle.std.proofs.Common.{rules};
    ghost use Rattle.std.specs.Cmp.Rules.{comparing};

    ghost laws = { Prim.search (comparing, rules) };
}

impl<A: Allocator> Words<A> {
    /// The list of what the `Vec` holds, with no growth.
    pub fn from_vec(items: Vec<u16, A>) -> Self
        ensures { result ≡ items.items }
    {
        Self { items }
    }

    /// The words, in their order.
    pub fn as_slice(&self) -> &[u16]
        ensures { result.now ≡ self.now }
    {
        self.items.as_slice()
    }

    /// The `Vec` that holds the words, with no growth.
    pub fn into_vec(self) -> Vec<u16, A>
        ensures { result.items ≡ self }
    {
        let Words { items } = self;
        items
    }
}
