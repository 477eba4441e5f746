// The store of files that the programs have: those of the system, whose names are paths from the working folder on.
ghost use Rattle.p11_files.specs.Disks.{FailsToReplace, ReadsFile, Replaces, WhyNot, limit, untouched};
ghost use Rattle.p11_files.specs.Told.{TellsPut};
ghost use Rattle.std.specs.Prelude.{◌≡◌, ◌+◌, ◌<◌, [], ◌∷◌, ◌++◌, true, false, Some, None, IsOk, IfOk, IfErr, IsSome, OnOk, option_copied, string_bytes};
ghost use Rattle.std.specs.Option.{option_map};

use crate::beneath::whole_folder;
use crate::file_fault::FileFault;
use crate::reading::{is_file, read_file};
use crate::replacing::replace_file;
use crate::system_disk::SystemDisk;
use crate::told::{ToldCall, ToldCalls};
use p11_store::{Refusals, Store, StoreError};
use std::alloc::Allocator;
use std::sync::ledger::{Blank, Ledger};

/// The files of the system. None of them is open between two calls. Contracts know its calls, and those of the system's disk.
#[derive(Drop)]
pub struct FileStore<'a, L: Ledger> {
    rt: &'a HostRuntime,
    refusals: Refusals<L>,
    calls: ToldCalls,
    disk: SystemDisk<'a>,
    /// Why the last call failed, where it did.
    fault: Option<FileFault>,
    /// Whether a fetch takes any file, and waits for a pipe or a terminal.
    takes_any: bool,
    /// The folder, with a slash behind it, whose files alone may be had.
    folder: Option<String>,
    /// Whether a put writes nothing.
    is_saveless: bool,
}

impl<'a, L: Ledger> FileStore<'a, L> {
    /// The files that the program reaches. No call was made, and none refused.
    pub fn new(rt: &'a HostRuntime, blank: Blank) -> Self
        requires name { blank.name ≡ L.name }
        requires parts { blank.parts ≡ L.parts }
        requires some { 0 < blank.parts }
        ensures refusals { result.refusals ≡ 0 }
        ensures calls { result.calls.made ≡ [] }
        ensures disk { result.disk.told.state ≡ untouched }
    {
        FileStore {
            rt,
            refusals: Refusals::new(blank),
            calls: ToldCalls::new(),
            disk: SystemDisk::new(rt),
            fault: None,
            takes_any: false,
            folder: None,
            is_saveless: false,
        }
    }

    /// From then on names are those of files below a folder, and no others may be had.
    ///
    /// # Errors
    ///
    /// The folder isn't there, or is none; then nothing has changed.
    pub fn confine(&mut self, folder: &str) -> Result<(), FileFault>
        ensures count { self.new.refusals ≡ self.old.refusals }
        ensures calls { self.new.calls.made ≡ self.old.calls.made }
        ensures ok { OnOk result (IsSome self.new.folder) }
        ensures saveless { self.new.is_saveless ≡ self.old.is_saveless }
    {
        let whole = whole_folder(self.rt, folder)?;
        self.folder = Some(whole);
        Ok(())
    }

    /// From then on a put is answered, and writes nothing.
    pub fn save_nothing(&mut self)
        ensures count { self.new.refusals ≡ self.old.refusals }
        ensures calls { self.new.calls.made ≡ self.old.calls.made }
        ensures folder { self.new.folder ≡ self.old.folder }
        ensures saveless { self.new.is_saveless ≡ true }
    {
        self.is_saveless = true;
    }

    /// Says whether a fetch takes any file, as one that the user named: also one that isn't below the folder, and a pipe or a
    /// terminal, for whose bytes it waits. At first it doesn't.
    pub fn take_any(&mut self, takes_any: bool)
        ensures count { self.new.refusals ≡ self.old.refusals }
        ensures calls { self.new.calls.made ≡ self.old.calls.made }
        ensures folder { self.new.folder ≡ self.old.folder }
        ensures saveless { self.new.is_saveless ≡ self.old.is_saveless }
        ensures any { self.new.takes_any ≡ takes_any }
    {
        self.takes_any = takes_any;
    }

    /// Why the last call failed, by what the system said of it; `None` where it didn't fail.
    pub fn fault(&self) -> Option<FileFault>
        ensures { result ≡ self.now.fault }
    {
        self.fault
    }

    /// Whether a file of that name is there.
    pub fn has(&self, name: &[u8]) -> bool {
        is_file(self.rt, text_of(&self.folder), name)
    }

    /// Tells a call that isn't refused.
    fn tell(&mut self, is_put: bool, name: &[u8])
        ensures disk { self.new.disk.told.state ≡ self.old.disk.told.state }
        ensures fault { self.new.fault ≡ self.old.fault }
        ensures count { self.new.refusals ≡ self.old.refusals }
        ensures calls { self.new.calls.made ≡ self.old.calls.made
            ++ record { is_put = is_put; name = name.now; is_refused = false } ∷ [] }
    {
        self.calls = self.calls.then(&ToldCall {
            is_put,
            name,
            is_refused: false,
        });
    }

    /// Refuses a call.
    fn refuse(&mut self, is_put: bool, name: &[u8]) -> StoreError
        ensures disk { self.new.disk.told.state ≡ self.old.disk.told.state }
        ensures fault { self.new.fault ≡ self.old.fault }
        ensures error { result ≡ StoreError.Refused }
        ensures count { self.new.refusals ≡ self.old.refusals + 1 }
        ensures calls { self.new.calls.made ≡ self.old.calls.made
            ++ record { is_put = is_put; name = name.now; is_refused = true } ∷ [] }
    {
        self.refusals.count();
        self.calls = self.calls.then(&ToldCall {
            is_put,
            name,
            is_refused: true,
        });
        StoreError::Refused
    }

    /// Reads a file of the system, and keeps why it can't be read.
    fn read<A: Allocator>(&mut self, alloc: A, name: &[u8]) -> Result<Vec<u8, A>, FileFault>
        ensures count { self.new.refusals ≡ self.old.refusals }
        ensures calls { self.new.calls.made ≡ self.old.calls.made }
        ensures ok { IfOk result (λ bytes. (self.new.fault ≡ None) × ReadsFile (limit self.old.takes_any
            (option_map string_bytes self.old.folder)) name.now bytes.items self.old.disk.told.state self.new.disk.told.state) }
        ensures err { IfErr result (λ fault. (self.new.fault ≡ Some fault)
            × WhyNot fault self.old.disk.told.state self.new.disk.told.state) }
    {
        let takes_any = self.takes_any;
        let folder = limit_of(&self.folder, takes_any);
        match read_file(
            &mut self.disk,
            self.rt.alloc(),
            alloc,
            folder,
            name,
            takes_any,
        ) {
            Ok(bytes) => {
                self.fault = None;
                Ok(bytes)
            }
            Err(fault) => {
                self.fault = Some(fault);
                Err(fault)
            }
        }
    }

    /// Leaves bytes in a file of the system, and keeps why it can't be written. Where nothing is to be written this asks nothing
    /// of the disk, and says OK.
    fn write(&mut self, name: &[u8], bytes: &[u8]) -> Result<(), FileFault>
        ensures count { self.new.refusals ≡ self.old.refusals }
        ensures calls { self.new.calls.made ≡ self.old.calls.made }
        ensures saveless { self.old.is_saveless ≡ true → IsOk result × (self.new.disk.told.state ≡ self.old.disk.told.state) }
        ensures ok { OnOk result (self.new.fault ≡ None) }
        ensures err { IfErr result (λ fault. self.new.fault ≡ Some fault) }
        ensures replaced { self.old.is_saveless ≡ false → OnOk result (Replaces (option_map string_bytes self.old.folder)
            name.now bytes.now self.old.disk.told.state self.new.disk.told.state) }
        ensures failed { self.old.is_saveless ≡ false → IfErr result (λ fault.
            FailsToReplace (option_map string_bytes self.old.folder) name.now bytes.now fault
            self.old.disk.told.state self.new.disk.told.state) }
    {
        if self.is_saveless {
            self.fault = None;
            return Ok(());
        }
        let folder = text_of(&self.folder);
        match replace_file(&mut self.disk, self.rt.alloc(), folder, name, bytes) {
            Ok(()) => {
                self.fault = None;
                Ok(())
            }
            Err(fault) => {
                self.fault = Some(fault);
                Err(fault)
            }
        }
    }

    /// Leaves bytes under a name: this says OK just where the file of the name was replaced, and tells that call. Where nothing
    /// is to be written it says OK, and no file is.
    fn replace(&mut self, name: &[u8], bytes: &[u8]) -> Result<(), StoreError>
        ensures saveless { self.old.is_saveless ≡ true → IsOk result × (self.new.disk.told.state ≡ self.old.disk.told.state) }
        ensures ok { OnOk result (TellsPut name.now false self.old.calls.made self.new.calls.made
            × (self.new.refusals ≡ self.old.refusals)) }
        ensures err { IfErr result (λ error. (error ≡ StoreError.Refused)
            × TellsPut name.now true self.old.calls.made self.new.calls.made
            × (self.new.refusals ≡ self.old.refusals + 1)) }
        ensures replaced { self.old.is_saveless ≡ false → OnOk result (Replaces (option_map string_bytes self.old.folder)
            name.now bytes.now self.old.disk.told.state self.new.disk.told.state) }
        ensures failed { self.old.is_saveless ≡ false → IfErr result (λ error. (fault : FileFault) × (self.new.fault ≡ Some fault)
            × FailsToReplace (option_map string_bytes self.old.folder) name.now bytes.now fault
            self.old.disk.told.state self.new.disk.told.state) }
    {
        match self.write(name, bytes) {
            Ok(()) => {
                self.tell(true, name);
                Ok(())
            }
            Err(_) => Err(self.refuse(true, name)),
        }
    }
}

/// The text of a folder's path.
fn text_of(folder: &Option<String>) -> Option<&str>
    ensures { option_copied result ≡ option_map string_bytes folder.now }
{
    match folder {
        Some(folder) => Some(folder.as_str()),
        None => None,
    }
}

/// The folder below which alone files are read, unless any may be.
fn limit_of(folder: &Option<String>, takes_any: bool) -> Option<&str>
    ensures { option_copied result ≡ limit takes_any (option_map string_bytes folder.now) }
{
    if takes_any {
        return None;
    }
    text_of(folder)
}

impl<'a, L: Ledger> Store for FileStore<'a, L> {
    ghost state = { λ s. record { files = None; refusals = s.refusals; calls = Some s.calls.made } };

    fn fetch<A: Allocator>(&mut self, alloc: A, name: &[u8]) -> Result<Vec<u8, A>, StoreError> {
        match self.read(alloc, name) {
            Ok(bytes) => {
                self.tell(false, name);
                Ok(bytes)
            }
            Err(FileFault::NoMemory) => {
                self.tell(false, name);
                Err(StoreError::NoMemory)
            }
            Err(_) => Err(self.refuse(false, name)),
        }
    }

    fn put(&mut self, name: &[u8], bytes: &[u8]) -> Result<(), StoreError> {
        self.replace(name, bytes)
    }
}
