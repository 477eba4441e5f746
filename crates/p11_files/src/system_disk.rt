// The disk of the system: each method makes its call of the system, and tells it. That it makes the call which it tells isn't proved.
ghost use Rattle.std.specs.Prelude.{◌≡◌, ◌<◌, ◌++◌, [], length, string_bytes, IfOk, bit_and};
ghost use Rattle.std.specs.Io.{ReadsAtMost, WritesAtMost};
ghost use Rattle.p11_files.specs.Disks.{after, call_on, clearing, reason_in, untouched};

use crate::disk::{Act, Disk, Found};
use crate::file_fault::FileFault;
use crate::leftovers::{clear, is_at};
use crate::locating::located;
use crate::told::{MadeCall, ToldDisk};
use std::fs::{File, Metadata, OpenOptions, Permissions, TryLockError};
use std::io::{ErrorKind, Read, Write};
use std::os::unix::fs::{FileTypeExt, MetadataExt, OpenOptionsExt, PermissionsExt, fchown};
use std::{fs, io, process};

/// The number of the system's null device, which has no bytes: major number 1, minor number 3.
const NULL_DEVICE: u64 = 0x103;

/// The bits of a file's mode that say who may read, write and run it.
const PERMISSION_BITS: u32 = 0o777;

/// The disk of the system. One file of it is open at most.
#[derive(Drop)]
pub struct SystemDisk<'a> {
    rt: &'a HostRuntime,
    file: Option<File>,
    pub told: ToldDisk,
}

impl<'a> SystemDisk<'a> {
    /// The disk, of which nothing was asked yet.
    pub fn new(rt: &'a HostRuntime) -> Self
        ensures { result.told.state ≡ untouched }
    {
        SystemDisk {
            rt,
            file: None,
            told: ToldDisk::new(),
        }
    }

    /// Tells a call.
    fn tell(&mut self, act: Act, path: &[u8], other: &[u8], fault: Option<FileFault>)
        ensures { self.new.told.state ≡ after self.old.told.state
            (record { act = act; path = path.now; other = other.now; reason = reason_in fault }) }
    {
        self.told = self.told.then(&MadeCall {
            act,
            path,
            other,
            fault,
        });
    }

    /// Tells a call that gives nothing, and answers it.
    fn end(
        &mut self,
        act: Act,
        path: &str,
        other: &str,
        done: io::Result<()>,
    ) -> Result<(), FileFault>
        ensures { self.new.told.state ≡ after self.old.told.state (call_on act path.now other.now result) }
    {
        match done {
            Ok(()) => {
                self.tell(act, path.as_bytes(), other.as_bytes(), None);
                Ok(())
            }
            Err(error) => {
                let fault = FileFault::from(error);
                self.tell(act, path.as_bytes(), other.as_bytes(), Some(fault));
                Err(fault)
            }
        }
    }

    /// Tells a path without links, and answers it.
    fn answer(&mut self, path: &str, whole: io::Result<String>) -> Result<String, FileFault>
        ensures { self.new.told.state ≡ after self.old.told.state (clearing path.now result) }
    {
        match whole {
            Ok(whole) => {
                self.tell(Act::Whole, path.as_bytes(), whole.as_bytes(), None);
                Ok(whole)
            }
            Err(error) => {
                let fault = FileFault::from(error);
                self.tell(Act::Whole, path.as_bytes(), b"", Some(fault));
                Err(fault)
            }
        }
    }
}

impl Disk for SystemDisk<'_> {
    ghost state = { λ d. d.told.state };

    fn process(&self) -> u32 {
        process::id(self.rt.process())
    }

    fn locate(&mut self, name: &str) -> Result<Found, FileFault> {
        match located(self.rt, name) {
            Ok((found, path)) => {
                self.tell(Act::Locate, name.as_bytes(), path.as_bytes(), None);
                Ok(found)
            }
            Err(error) => {
                let fault = FileFault::from(error);
                self.tell(Act::Locate, name.as_bytes(), b"", Some(fault));
                Err(fault)
            }
        }
    }

    fn whole(&mut self, path: &str) -> Result<String, FileFault> {
        let whole = canonical(self.rt, path);
        self.answer(path, whole)
    }

    fn whole_folder(&mut self, path: &str) -> Result<String, FileFault> {
        let whole = canonical_folder(self.rt, path);
        self.answer(path, whole)
    }

    fn is_there(&mut self, path: &str) -> Result<bool, FileFault> {
        match fs::exists(self.rt, path) {
            Ok(is_there) => {
                self.tell(Act::Look, path.as_bytes(), b"", None);
                Ok(is_there)
            }
            Err(error) => {
                let fault = FileFault::from(error);
                self.tell(Act::Look, path.as_bytes(), b"", Some(fault));
                Err(fault)
            }
        }
    }

    fn may_write(&mut self, path: &str) -> Result<(), FileFault> {
        let done = opened_to_write(self.rt, path);
        self.end(Act::Look, path, "", done)
    }

    fn open(&mut self, path: &str, waits: bool) -> Result<(), FileFault> {
        match opened(self.rt, path, waits) {
            Ok(file) => {
                self.file = Some(file);
                self.tell(Act::Open, path.as_bytes(), b"", None);
                Ok(())
            }
            Err(fault) => {
                self.tell(Act::Open, path.as_bytes(), b"", Some(fault));
                Err(fault)
            }
        }
    }

    fn read(&mut self, bytes: &mut [u8]) -> Result<usize, FileFault> {
        let given = match &mut self.file {
            Some(file) => file.read(bytes),
            None => Ok(0),
        };
        match given {
            Ok(count) => {
                self.tell(Act::Read, b"", &bytes[..count], None);
                Ok(count)
            }
            Err(error) => {
                let fault = FileFault::from(error);
                self.tell(Act::Read, b"", b"", Some(fault));
                Err(fault)
            }
        }
    }

    fn clear(&mut self, path: &str) {
        clear(self.rt, folder_of(path));
    }

    fn create_new(&mut self, path: &str, mode: u32) -> Result<bool, FileFault> {
        match created(self.rt, path, mode) {
            Ok(Some(file)) => {
                self.file = Some(file);
                self.tell(Act::Create, path.as_bytes(), b"", None);
                Ok(true)
            }
            Ok(None) => {
                self.tell(Act::Miss, path.as_bytes(), b"", None);
                Ok(false)
            }
            Err(error) => {
                let fault = FileFault::from(error);
                self.tell(Act::Create, path.as_bytes(), b"", Some(fault));
                Err(fault)
            }
        }
    }

    fn write(&mut self, bytes: &[u8]) -> Result<usize, FileFault> {
        let taken = match &mut self.file {
            Some(file) => file.write(bytes),
            None => Ok(0),
        };
        match taken {
            Ok(count) if count > 0 => {
                self.tell(Act::Write, b"", &bytes[..count], None);
                Ok(count)
            }
            Ok(_) => {
                self.tell(Act::Write, b"", b"", Some(FileFault::Unknown));
                Err(FileFault::Unknown)
            }
            Err(error) => {
                let fault = FileFault::from(error);
                self.tell(Act::Write, b"", b"", Some(fault));
                Err(fault)
            }
        }
    }

    fn sync(&mut self, old: &Option<Metadata>) -> Result<(), FileFault> {
        let done = match &self.file {
            Some(file) => synced(file, old),
            None => Ok(()),
        };
        self.end(Act::Sync, "", "", done)
    }

    fn rename(&mut self, from: &str, to: &str) -> Result<(), FileFault> {
        let done = fs::rename(self.rt, from, to);
        self.end(Act::Rename, from, to, done)
    }

    fn settle(&mut self, path: &str) -> Result<(), FileFault> {
        let done = settled(self.rt, folder_of(path));
        self.end(Act::Settle, path, "", done)
    }

    fn remove(&mut self, path: &str) -> Result<(), FileFault> {
        let done = fs::remove_file(self.rt, path);
        self.end(Act::Remove, path, "", done)
    }

    fn close(&mut self) {
        self.file = None;
    }
}

/// The folder of a path.
fn folder_of(path: &str) -> &str {
    match path.rsplit_once('/') {
        Some(("", _)) => "/",
        Some((folder, _)) => folder,
        None => ".",
    }
}

/// The path without links of what a path leads to.
fn canonical(rt: &HostRuntime, path: &str) -> io::Result<String> {
    let whole = fs::canonicalize(rt, path)?;
    Ok(String::from_str(rt.alloc(), whole.as_str())?)
}

/// The path without links of a folder, with a slash behind it. A path without a name is the working folder's.
fn canonical_folder(rt: &HostRuntime, path: &str) -> io::Result<String> {
    let mut whole = canonical(rt, if path.is_empty() { "." } else { path })?;
    if !whole.as_str().ends_with('/') {
        whole.push('/')?;
    }
    Ok(whole)
}

fn opened_to_write(rt: &HostRuntime, path: &str) -> io::Result<()> {
    OpenOptions::new().write(true).open(rt, path)?;
    Ok(())
}

/// Opens a file. One that may wait isn't opened, nor read, unless it is to be waited for.
fn opened(rt: &HostRuntime, path: &str, waits: bool) -> Result<File, FileFault> {
    if !waits && may_wait(&fs::metadata(rt, path)?) {
        return Err(FileFault::NotFile);
    }
    let file = File::open(rt, path)?;
    if !waits && may_wait(&file.metadata()?) {
        return Err(FileFault::NotFile);
    }
    Ok(file)
}

/// Whether it is a pipe, a socket, or a device other than the null device.
fn may_wait(there: &Metadata) -> bool {
    let kind = there.file_type();
    if kind.is_char_device() {
        return there.rdev() != NULL_DEVICE;
    }
    kind.is_fifo() || kind.is_socket() || kind.is_block_device()
}

/// Makes a file, where nothing may be yet; while it is open its lock says that it is being written. `None` if something was
/// there, or another process took it for one that was left.
fn created(rt: &HostRuntime, path: &str, mode: u32) -> io::Result<Option<File>> {
    let how = OpenOptions::new()
        .write(true)
        .create_new(true)
        .mode(mode)
        .open(rt, path);
    match how {
        Ok(file) => Ok(if is_kept(rt, &file, path)? {
            Some(file)
        } else {
            None
        }),
        Err(error) if error.kind() == ErrorKind::AlreadyExists => Ok(None),
        Err(error) => Err(error),
    }
}

/// Locks a new file; whether it is there still.
fn is_kept(rt: &HostRuntime, file: &File, path: &str) -> io::Result<bool> {
    if let Err(TryLockError::WouldBlock) = file.try_lock() {
        return Ok(false);
    }
    let made = file.metadata()?;
    Ok(made.nlink() > 0 || is_at(rt, &made, path))
}

/// Gives a new file the rights of an old one, and brings it to the disk.
fn synced(file: &File, old: &Option<Metadata>) -> io::Result<()> {
    if let Some(old) = old {
        take_rights(file, old)?;
    }
    file.sync_all()
}

/// Gives a new file the permission bits of an old one, and its owner and group where the system lets it.
fn take_rights(file: &File, old: &Metadata) -> io::Result<()> {
    if fchown(file, Some(old.uid()), Some(old.gid())).is_err() {
        let _ = fchown(file, None, Some(old.gid()));
    }
    file.set_permissions(Permissions::from_mode(permission_bits(old.mode())))
}

/// What a mode says of who may read, write and run.
fn permission_bits(mode: u32) -> u32
    ensures { result ≡ bit_and mode 0o777 }
{
    mode & PERMISSION_BITS
}

/// Brings the entries of a folder to the disk, on those file systems that have a call for it, where it may be read.
fn settled(rt: &HostRuntime, folder: &str) -> io::Result<()> {
    let Ok(folder) = File::open(rt, folder) else {
        return Ok(());
    };
    match folder.sync_all() {
        Err(error) if is_call_missing(error.kind()) => Ok(()),
        done => done,
    }
}

/// Whether a file system has no such call.
fn is_call_missing(kind: ErrorKind) -> bool {
    matches!(kind, ErrorKind::InvalidInput | ErrorKind::Unsupported)
}
