// A store of files in memory, which can be written as a row.
ghost use Rattle.std.specs.Prelude.{◌≡◌, ◌+◌, ◌∷◌, ◌++◌, [], ◌<◌, None, Some, OnOk, OnErr, IfOk, IsTrue, ◌↔◌};
ghost use Rattle.std.specs.Prelude.{option_copied};
ghost use Rattle.std.specs.List.{All};
ghost use Rattle.p11_store.specs.Calls.Files.{bytes_under, with_file};
ghost use Rattle.p11_handles.specs.Calls.{unrefused};
ghost use Rattle.p11_handles.specs.HeldCalls.{without};
ghost use Rattle.p11_handles.specs.Rows.{Fits, file_of};

use p11_panel::{Refusals, Store, StoreError};
use std::alloc::{AllocError, Allocator, Global};
use std::marker::Model;
use std::sync::ledger::{Blank, Ledger};

/// A file, by its name.
#[derive(Drop)]
pub(crate) struct StoredFile<A: Allocator = Global> {
    name: Vec<u8, A>,
    bytes: Vec<u8, A>,
}

impl<A: Allocator> Model for StoredFile<A> {
    ghost use Rattle.p11_store.specs.Calls.Files.{NamedBytes};

    ghost Value = { NamedBytes };

    ghost view = { λ f. record { name = f.name.items; bytes = f.bytes.items } };
}

impl<A: Allocator + Copy> StoredFile<A> {
    /// A copy of these bytes, with a copy of this name.
    pub(crate) fn new(alloc: A, name: &[u8], bytes: &[u8]) -> Result<Self, AllocError>
        ensures { IfOk result (λ f. f ≡ file_of name.now bytes.now) }
    {
        let name = Vec::from_slice(alloc, name)?;
        let bytes = Vec::from_slice(alloc, bytes)?;
        Ok(StoredFile { name, bytes })
    }
}

impl<A: Allocator> StoredFile<A> {
    pub(crate) fn name(&self) -> &[u8]
        ensures { result.now ≡ self.now.name }
    {
        self.name.as_slice()
    }

    pub(crate) fn bytes(&self) -> &[u8]
        ensures { result.now ≡ self.now.bytes }
    {
        self.bytes.as_slice()
    }
}

/// Keeps one more file, behind the others.
pub(crate) fn add_file<A: Allocator + Copy>(
    alloc: A,
    files: &mut Vec<StoredFile<A>, A>,
    name: &[u8],
    bytes: &[u8],
) -> Result<(), AllocError>
    ensures ok { OnOk result (files.new.items ≡ files.old.items ++ file_of name.now bytes.now ∷ []) }
    ensures err { OnErr result (files.new.items ≡ files.old.items) }
{
    let file = StoredFile::new(alloc, name, bytes)?;
    files.push(file)?;
    Ok(())
}

/// The last bytes under a name.
pub(crate) fn find<'a, A: Allocator>(files: &'a [StoredFile<A>], name: &[u8]) -> Option<&'a [u8]>
    ensures { option_copied result ≡ bytes_under None files.now name.now }
{
    let mut found = None;
    for file in files {
        if file.name() == name {
            found = Some(file.bytes());
            continue;
        }
    }
    found
}

/// Drops each file of a name.
pub(crate) fn forget<A: Allocator>(files: &mut Vec<StoredFile<A>, A>, name: &[u8])
    ensures { files.new.items ≡ without name.now files.old.items }
{
    files.retain(|file| file.name() != name);
}

/// A store of files in memory, in which the last bytes under a name count, and whose names and files have fewer than
/// 2^32 bytes each.
///
/// It refuses a fetch of a name that it doesn't have, and a put of more bytes than that or for which it has no memory;
/// a fetch whose copy finds no memory answers `NoMemory`, which is no refusal.
#[derive(Drop)]
pub(crate) struct RowStore<L: Ledger, A: Allocator = Global> {
    files: Vec<StoredFile<A>, A>,
    refusals: Refusals<L>,
    alloc: A,
}

impl<L: Ledger, A: Allocator> Model for RowStore<L, A> {
    ghost use Rattle.std.specs.List.{All};
    ghost use Rattle.p11_store.specs.Calls.Files.{MemoryFiles};
    ghost use Rattle.p11_handles.specs.Rows.{Fits};

    ghost Value = { MemoryFiles };

    ghost view = { λ s. record { files = s.files.items; refusals = s.refusals } };

    ghost invariant = { λ s. All Fits s.files.items };
}

impl<L: Ledger, A: Allocator + Copy> RowStore<L, A> {
    /// A store that has these files, and has refused nothing.
    pub(crate) fn new(alloc: A, blank: Blank, files: Vec<StoredFile<A>, A>) -> Self
        requires name { blank.name ≡ L.name }
        requires parts { blank.parts ≡ L.parts }
        requires some { 0 < blank.parts }
        requires fit { All Fits files.items }
        ensures { result ≡ unrefused files.items }
    {
        RowStore {
            files,
            refusals: Refusals::new(blank),
            alloc,
        }
    }

    /// All files, in the order in which they were put.
    pub(crate) fn files(&self) -> &[StoredFile<A>]
        ensures files { result.now ≡ self.now.files }
        ensures fit { All Fits result.now }
    {
        self.files.as_slice()
    }

    /// All files, in the order in which they were put.
    pub(crate) fn into_files(self) -> Vec<StoredFile<A>, A>
        ensures files { result.items ≡ self.files }
        ensures fit { All Fits result.items }
    {
        let RowStore {
            files,
            refusals: _,
            alloc: _,
        } = self;
        files
    }

    /// Keeps one more file.
    fn add(&mut self, name: &[u8], bytes: &[u8]) -> Result<(), AllocError>
        requires { Fits (file_of name.now bytes.now) }
        ensures ok { OnOk result (self.new ≡ with_file name.now bytes.now self.old) }
        ensures err { OnErr result (self.new ≡ self.old) }
    {
        add_file(self.alloc, &mut self.files, name, bytes)?;
        Ok(())
    }

    /// Refuses a call.
    fn refuse(&mut self) -> StoreError
        ensures error { result ≡ StoreError.Refused }
        ensures state { self.new ≡ record self.old { refusals = self.old.refusals + 1 } }
    {
        self.refusals.count();
        StoreError::Refused
    }
}

/// Whether the lengths of a file's name and of its bytes are numbers of 4 bytes.
pub(crate) fn fits(name: &[u8], bytes: &[u8]) -> bool
    ensures { IsTrue result ↔ Fits (file_of name.now bytes.now) }
{
    name.len() < 1 << 32 && bytes.len() < 1 << 32
}

impl<L: Ledger, A: Allocator + Copy> Store for RowStore<L, A> {
    ghost use Rattle.p11_store.specs.Calls.Files.{store_of};

    ghost state = { λ s. store_of s };

    fn fetch<B: Allocator>(&mut self, alloc: B, name: &[u8]) -> Result<Vec<u8, B>, StoreError> {
        let Some(bytes) = find(self.files.as_slice(), name) else {
            return Err(self.refuse());
        };
        match Vec::from_slice(alloc, bytes) {
            Ok(copy) => Ok(copy),
            Err(_) => Err(StoreError::NoMemory),
        }
    }

    fn put(&mut self, name: &[u8], bytes: &[u8]) -> Result<(), StoreError> {
        if !fits(name, bytes) {
            return Err(self.refuse());
        }
        match self.add(name, bytes) {
            Ok(()) => Ok(()),
            Err(_) => Err(self.refuse()),
        }
    }
}
