// Why a file couldn't be read or written, by what the failed call said.
ghost use Rattle.std.specs.Prelude.{◌≡◌};
ghost use Rattle.std.specs.IoError.{error_kind, raw_os_error};
ghost use Rattle.p11_files.specs.Faults.{fault_by, fault_in, number_faults, text_of};

use std::alloc::AllocError;
use std::io;
use std::io::ErrorKind;

/// Why a file couldn't be read or written.
#[derive(Clone, Copy)]
pub enum FileFault {
    /// Nothing has that name.
    NotThere,
    /// The system doesn't allow it.
    Denied,
    /// The file's mode forbids its owner to write it.
    Protected,
    /// The name is a folder's.
    Folder,
    /// What should be the name's folder is none.
    NotFolder,
    /// The name is that of a device, a pipe, a socket or a terminal.
    NotFile,
    /// The system has an open file under the name, and no path to it.
    Nameless,
    /// The name leads out of the folder whose files alone may be had.
    Outside,
    /// Its file system is read-only.
    ReadOnly,
    /// Its file system has no room.
    NoRoom,
    /// The user's quota is used up.
    Quota,
    /// The system takes no file of that size.
    TooLarge,
    /// It is a mount point, or a program that runs.
    Busy,
    /// Its links lead in a ring.
    Ring,
    /// The name is too long.
    LongName,
    /// The name is no UTF-8.
    NotUtf8,
    /// The file has more bytes than a fetch takes.
    TooLong,
    /// The device failed.
    Hardware,
    /// There was no memory.
    NoMemory,
    /// As many files are open as may be.
    TooManyOpen,
    /// Anything else.
    Unknown,
}

impl FileFault {
    /// Why, in few words.
    pub fn text(self) -> &'static str
        ensures { result.now ≡ text_of self }
    {
        match self {
            FileFault::NotThere => "no such file",
            FileFault::Denied => "permission denied",
            FileFault::Protected => "it is protected",
            FileFault::Folder => "it is a folder",
            FileFault::NotFolder => "what should be its folder is none",
            FileFault::NotFile => "it is a device, a pipe or a terminal",
            FileFault::Nameless => "the system has no path to it",
            FileFault::Outside => "it is outside of the folder of --files",
            FileFault::ReadOnly => "its file system is read-only",
            FileFault::NoRoom => "no room is left on its file system",
            FileFault::Quota => "the quota is used up",
            FileFault::TooLarge => "the system takes no file of that size",
            FileFault::Busy => "it is busy: a mount point, or a program that runs",
            FileFault::Ring => "its links lead in a ring",
            FileFault::LongName => "its name is too long",
            FileFault::NotUtf8 => "its name is no UTF-8",
            FileFault::TooLong => "it is longer than 16,773,120 bytes",
            FileFault::Hardware => "its device failed",
            FileFault::NoMemory => "there was no memory",
            FileFault::TooManyOpen => "too many files are open",
            FileFault::Unknown => "the system refused it",
        }
    }
}

/// What a failed call said.
pub(crate) fn fault_of(error: &io::Error) -> FileFault
    ensures { result ≡ fault_by (error_kind error.now) (raw_os_error error.now) }
{
    match error.kind() {
        ErrorKind::NotFound => FileFault::NotThere,
        ErrorKind::PermissionDenied => FileFault::Denied,
        ErrorKind::IsADirectory => FileFault::Folder,
        ErrorKind::NotADirectory => FileFault::NotFolder,
        ErrorKind::ReadOnlyFilesystem => FileFault::ReadOnly,
        ErrorKind::StorageFull => FileFault::NoRoom,
        ErrorKind::QuotaExceeded => FileFault::Quota,
        ErrorKind::FileTooLarge => FileFault::TooLarge,
        ErrorKind::ResourceBusy => FileFault::Busy,
        ErrorKind::ExecutableFileBusy => FileFault::Busy,
        ErrorKind::FilesystemLoop => FileFault::Ring,
        ErrorKind::InvalidFilename => FileFault::LongName,
        ErrorKind::OutOfMemory => FileFault::NoMemory,
        ErrorKind::Uncategorized => fault_of_number(
            error.raw_os_error().unwrap_or(0).unsigned_abs(),
        ),
        _ => FileFault::Unknown,
    }
}

/// What a call said by a number of the system's for which std has no kind.
fn fault_of_number(number: u32) -> FileFault
    ensures { result ≡ fault_in number_faults number }
{
    match number {
        5 => FileFault::Hardware,
        6 => FileFault::NotFile,
        23 => FileFault::TooManyOpen,
        24 => FileFault::TooManyOpen,
        _ => FileFault::Unknown,
    }
}

impl From<io::Error> for FileFault {
    ghost from_gives = { λ error fault. fault ≡ fault_by (error_kind error) (raw_os_error error) };

    fn from(error: io::Error) -> Self {
        fault_of(&error)
    }
}

impl From<AllocError> for FileFault {
    ghost use Rattle.p11_files.specs.declared.file_fault.FileFault.TheVariants as faults;

    ghost from_gives = { λ _ fault. fault ≡ faults.NoMemory };

    fn from(_: AllocError) -> Self {
        FileFault::NoMemory
    }
}
