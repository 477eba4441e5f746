// The calls of a store, of a reader and of a writer, which contracts alone see.
ghost use Rattle.std.specs.Prelude.{◌≡◌, Bool, List, [], ◌∷◌, ◌++◌};
ghost use Rattle.std.specs.Borrow.{ftrue};
ghost use Rattle.p11_store.specs.Store.{StoreCall};
ghost use Rattle.p11_files.specs.Disks.{DiskState, after, disk_code, reason_in, untouched};
ghost use Rattle.p11_files.specs.Told.{calls_code};

use crate::disk::Act;
use crate::file_fault::FileFault;
use std::marker::Model;

/// A call: whether a file was put or asked for, its name, and whether that was refused.
#[derive(Clone, Copy, Drop)]
pub struct ToldCall<'a> {
    pub is_put: bool,
    pub name: &'a [u8],
    pub is_refused: bool,
}

/// The calls that a store was asked, the first one first. It takes no bytes, and its methods do nothing at run time.
#[derive(Drop)]
pub struct ToldCalls {
    pub ghost made: { List StoreCall } by { calls_code },
}

impl Model for ToldCalls {
    ghost also_owns = { λ _. ftrue };
}

impl ToldCalls {
    /// No call yet.
    pub(crate) fn new() -> ToldCalls
        ensures { result.made ≡ [] }
    {
        ToldCalls {}
    }

    /// These calls, and one more.
    pub(crate) fn then(&self, _call: &ToldCall<'_>) -> ToldCalls
        ensures { result.made ≡ self.now.made
            ++ record { is_put = _call.now.is_put; name = _call.now.name.now; is_refused = _call.now.is_refused } ∷ [] }
    {
        ToldCalls {}
    }
}

/// A call of a disk: what was asked, the path that it names, what it gave or took, and why it failed, if it did.
#[derive(Clone, Copy, Drop)]
pub struct MadeCall<'a> {
    pub act: Act,
    pub path: &'a [u8],
    pub other: &'a [u8],
    pub fault: Option<FileFault>,
}

/// What a disk was asked, and how each call ended. It takes no bytes, and its methods do nothing at run time.
#[derive(Drop)]
pub struct ToldDisk {
    pub ghost state: { DiskState } by { disk_code },
}

impl Model for ToldDisk {
    ghost also_owns = { λ _. ftrue };
}

impl ToldDisk {
    /// No call yet.
    pub(crate) fn new() -> ToldDisk
        ensures { result.state ≡ untouched }
    {
        ToldDisk {}
    }

    /// These calls, and one more.
    pub(crate) fn then(&self, _call: &MadeCall<'_>) -> ToldDisk
        ensures { result.state ≡ after self.now.state (record {
          act = _call.now.act;
          path = _call.now.path.now;
          other = _call.now.other.now;
          reason = reason_in _call.now.fault;
        }) }
    {
        ToldDisk {}
    }
}

/// How the calls of a reader or a writer ended, the first one first: whether each went well. It takes no bytes, and its
/// methods do nothing at run time.
#[derive(Drop)]
pub struct ToldEnds {
    pub ghost made: { List Bool },
}

impl Model for ToldEnds {
    ghost also_owns = { λ _. ftrue };
}

impl ToldEnds {
    /// No call yet.
    pub fn new() -> ToldEnds
        ensures { result.made ≡ [] }
    {
        ToldEnds {}
    }

    /// These calls, and one more.
    pub fn then(&self, _went_well: &bool) -> ToldEnds
        ensures { result.made ≡ self.now.made ++ _went_well.now ∷ [] }
    {
        ToldEnds {}
    }
}
