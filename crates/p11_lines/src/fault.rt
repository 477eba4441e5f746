// Why a command or a line is refused.
ghost use Rattle.std.specs.Prelude.{◌≡◌};
ghost use Rattle.p11_lines.specs.FaultTable.{number_of_fault, name_of_fault};
ghost use Rattle.p11_lines.specs.declared.fault.Fault.TheVariants as fault;

use std::alloc::{AllocError, AllocFailed};
use thiserror::Error;

/// Why a command or a line is refused. The console shows the number and the name.
#[derive(Clone, Copy, Debug, PartialEq, Eq, Error)]
pub enum Fault {
    #[error("there is no such drive")]
    NoDrive = 1,
    #[error("the drive is empty")]
    DriveEmpty = 2,
    #[error("the drive has an image already")]
    DriveTaken = 3,
    #[error("the image is longer than a disk")]
    ImageTooLong = 4,
    #[error("a word has an even address")]
    OddAddress = 5,
    #[error("nothing answers at the address")]
    NoAnswer = 6,
    #[error("the drive is busy")]
    DriveBusy = 7,
    #[error("too many keys are waiting")]
    KeysFull = 8,
    #[error("the tape is damaged")]
    BadTape = 9,
    #[error("the count is out of range")]
    TooMany = 10,
    #[error("there is no such register")]
    BadRegister = 11,
    #[error("there is no memory left")]
    NoMemory = 12,
    #[error("the line is not a command")]
    BadLine = 13,
    #[error("the store of files failed")]
    StoreFault = 14,
    #[error("the size is out of range")]
    BadSize = 15,
}

impl Fault {
    /// The number that the console shows, 1 to 15 (decimal).
    pub fn number(self) -> u8
        ensures { result ≡ number_of_fault self }
    {
        self as u8
    }

    /// The name that the console shows.
    pub fn name(self) -> &'static str
        ensures { result.now ≡ name_of_fault self }
    {
        match self {
            Fault::NoDrive => "NoDrive",
            Fault::DriveEmpty => "DriveEmpty",
            Fault::DriveTaken => "DriveTaken",
            Fault::ImageTooLong => "ImageTooLong",
            Fault::OddAddress => "OddAddress",
            Fault::NoAnswer => "NoAnswer",
            Fault::DriveBusy => "DriveBusy",
            Fault::KeysFull => "KeysFull",
            Fault::BadTape => "BadTape",
            Fault::TooMany => "TooMany",
            Fault::BadRegister => "BadRegister",
            Fault::NoMemory => "NoMemory",
            Fault::BadLine => "BadLine",
            Fault::StoreFault => "StoreFault",
            Fault::BadSize => "BadSize",
        }
    }
}

/// A growth was refused.
#[derive(Clone, Copy, Debug, PartialEq, Eq, Error)]
#[error("there is no memory left")]
pub struct NoMemory;

impl From<AllocError> for NoMemory {
    fn from(_: AllocError) -> Self {
        NoMemory
    }
}

impl<T: Drop> From<AllocFailed<T>> for NoMemory {
    fn from(_: AllocFailed<T>) -> Self {
        NoMemory
    }
}

impl From<NoMemory> for Fault {
    ghost from_gives = { λ _ e. e ≡ fault.NoMemory };

    fn from(_: NoMemory) -> Self {
        Fault::NoMemory
    }
}

impl From<AllocError> for Fault {
    ghost from_gives = { λ _ e. e ≡ fault.NoMemory };

    fn from(_: AllocError) -> Self {
        Fault::from(NoMemory)
    }
}

impl<T: Drop> From<AllocFailed<T>> for Fault {
    ghost from_gives = { λ _ e. e ≡ fault.NoMemory };

    fn from(_: AllocFailed<T>) -> Self {
        NoMemory.into()
    }
}
