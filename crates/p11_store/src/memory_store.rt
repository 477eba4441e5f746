// A store of files in memory.
ghost use Rattle.std.specs.Prelude.{◌≡◌, ◌+◌, ◌∷◌, ◌++◌, [], ◌<◌, None, Some, OnOk, OnErr, option_copied};
ghost use Rattle.p11_store.specs.Calls.Files.{bytes_under, with_file};

use crate::store::{Refusals, Store, StoreError};
use p11_lines::Bytes;
use std::alloc::{AllocError, Allocator, Global};
use std::marker::Model;
use std::sync::ledger::{Blank, Ledger};

/// A file, by its name.
#[derive(Drop)]
struct File<A: Allocator> {
    name: Bytes<A>,
    bytes: Bytes<A>,
}

impl<A: Allocator> Model for File<A> {
    ghost use Rattle.p11_store.specs.Calls.Files.{NamedBytes};

    ghost Value = { NamedBytes };

    ghost view = { λ f. record { name = f.name; bytes = f.bytes } };
}

/// A store of files in memory, in which the last bytes under a name count.
///
/// It refuses a fetch of a name that it doesn't have, and a put for which it has no memory; a fetch whose copy finds no
/// memory answers `NoMemory`, which is no refusal.
#[derive(Drop)]
pub struct MemoryStore<L: Ledger, A: Allocator = Global> {
    files: Vec<File<A>, A>,
    refusals: Refusals<L>,
    alloc: A,
}

impl<L: Ledger, A: Allocator> Model for MemoryStore<L, A> {
    ghost use Rattle.p11_store.specs.Calls.Files.{MemoryFiles};

    ghost Value = { MemoryFiles };

    ghost view = { λ s. record { files = s.files.items; refusals = s.refusals } };
}

/// The last bytes under a name.
fn find<'a, A: Allocator>(files: &'a [File<A>], name: &[u8]) -> Option<&'a [u8]>
    ensures { option_copied result ≡ bytes_under None files.now name.now }
{
    let mut left = files.len();
    while left > 0 {
        left -= 1;
        let file = &files[left];
        if file.name.as_slice() == name {
            return Some(file.bytes.as_slice());
        }
    }
    None
}

impl<L: Ledger, A: Allocator + Copy> MemoryStore<L, A> {
    /// A store that has no file.
    pub fn new(alloc: A, blank: Blank) -> Self
        requires name { blank.name ≡ L.name }
        requires parts { blank.parts ≡ L.parts }
        requires some { 0 < blank.parts }
        ensures { result ≡ record { files = []; refusals = 0 } }
    {
        MemoryStore {
            files: Vec::new(alloc),
            refusals: Refusals::new(blank),
            alloc,
        }
    }

    /// Keeps one more file.
    fn add(&mut self, name: &[u8], bytes: &[u8]) -> Result<(), AllocError>
        ensures ok { OnOk result (self.new ≡ with_file name.now bytes.now self.old) }
        ensures err { OnErr result (self.new ≡ self.old) }
    {
        let name = Bytes::from_vec(Vec::from_slice(self.alloc, name)?);
        let bytes = Bytes::from_vec(Vec::from_slice(self.alloc, bytes)?);
        self.files.push(File { name, bytes })?;
        Ok(())
    }

    /// Refuses a call.
    pub(crate) fn refuse(&mut self) -> StoreError
        ensures error { result ≡ StoreError.Refused }
        ensures state { self.new ≡ record self.old { refusals = self.old.refusals + 1 } }
    {
        self.refusals.count();
        StoreError::Refused
    }
}

impl<L: Ledger, A: Allocator + Copy> Store for MemoryStore<L, A> {
    ghost use Rattle.p11_store.specs.Calls.Files.{store_of};

    ghost state = { λ s. store_of s };

    fn fetch<B: Allocator>(&mut self, alloc: B, name: &[u8]) -> Result<Vec<u8, B>, StoreError> {
        let Some(bytes) = find(self.files.as_slice(), name) else {
            return Err(self.refuse());
        };
        match Vec::from_slice(alloc, bytes) {
            Ok(copy) => Ok(copy),
            Err(_) => Err(StoreError::NoMemory),
        }
    }

    fn put(&mut self, name: &[u8], bytes: &[u8]) -> Result<(), StoreError> {
        match self.add(name, bytes) {
            Ok(()) => Ok(()),
            Err(_) => Err(self.refuse()),
        }
    }
}
