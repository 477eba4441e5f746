//! The trait of what keeps a session's files, packs and tapes, and the count of what it refused.
ghost use Rattle.std.specs.Prelude.{◌≡◌, ◌+◌, ◌<◌, IfOk, IfErr, OnOk};

use std::alloc::Allocator;
use std::marker::Model;
use std::sync::ledger::{Blank, Book, Ledger, Share};

/// Why a store gave no file, or took none.
#[derive(Clone, Copy, PartialEq, Eq)]
pub enum StoreError {
    /// It refused: the name is missing, or what holds the files failed.
    Refused,
    /// There is no memory for the bytes of the file.
    NoMemory,
}

/// Files by their names (chapter 23 of the book). Contracts know of it its files and its calls, each where the
/// implementation tells them, and how often it has refused.
pub trait Store {
    ghost use Rattle.p11_store.specs.Store.{StoreState, Fetches, FailsToFetch, Puts, FailsToPut};
    ghost use Rattle.p11_store.specs.declared.store.StoreError.TheVariants.{Refused};

    ghost state: { Self → StoreState };

    /// The bytes under a name.
    ///
    /// # Errors
    ///
    /// `Refused`, which is counted, where the name is missing or what holds the files failed; `NoMemory` where there is no
    /// memory for the bytes.
    fn fetch<A: Allocator>(&mut self, alloc: A, name: &[u8]) -> Result<Vec<u8, A>, StoreError>
        ensures ok { IfOk result (λ bytes. Fetches (state self.old) name.now bytes.items (state self.new)) }
        ensures err { IfErr result (λ e. FailsToFetch (state self.old) name.now e (state self.new)) };

    /// Leaves bytes under a name, in place of those that it had.
    ///
    /// # Errors
    ///
    /// `Refused` alone, which is counted: then what the name has isn't known, and the other names have what they had.
    fn put(&mut self, name: &[u8], bytes: &[u8]) -> Result<(), StoreError>
        ensures ok { OnOk result (Puts (state self.old) name.now bytes.now (state self.new)) }
        ensures err { IfErr result (λ e. (e ≡ Refused) × FailsToPut (state self.old) name.now (state self.new)) };
}

/// How often a store has refused, which contracts alone see. It takes no bytes, and has no greatest value.
#[derive(Drop)]
pub struct Refusals<L: Ledger> {
    book: Book<L>,
    share: Share<L>,
}

impl<L: Ledger> Model for Refusals<L> {
    ghost use Rattle.std.specs.Prelude.{ℕ, ◌<◌};

    ghost Value = { ℕ };

    ghost view = { λ r. r.book.total };

    ghost invariant = { λ r. 0 < r.share.parts };
}

impl<L: Ledger> Refusals<L> {
    /// No refusal yet.
    pub fn new(blank: Blank) -> Self
        requires name { blank.name ≡ L.name }
        requires parts { blank.parts ≡ L.parts }
        requires some { 0 < blank.parts }
        ensures { result ≡ 0 }
    {
        let (book, share) = blank.open::<L>();
        Refusals { book, share }
    }

    /// Counts one more refusal.
    pub fn count(&mut self)
        ensures { self.new ≡ self.old + 1 }
    {
        self.book.add(&mut self.share, 1);
    }
}
