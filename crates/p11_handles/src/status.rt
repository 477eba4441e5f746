// How a call of C's ended.
ghost use Rattle.std.specs.Prelude.{◌≡◌};
ghost use Rattle.p11_handles.specs.Statuses.{number_of_status};

use p11_panel::NoMemory;
use std::alloc::{AllocError, AllocFailed};

/// How a call ended.
#[derive(Clone, Copy, PartialEq, Eq)]
pub enum Status {
    /// The session is done, and its answers and files are handed out.
    Done,
    /// There is no memory for the machine, the files or what is handed out.
    NoMemory,
    /// A machine can't have these sizes.
    BadSize,
    /// The bytes of the files are no row of files, or no row has a file as long as this one.
    BadFiles,
    /// A buffer has no room for what is handed out.
    TooSmall,
    /// The script wasn't read to its end: it is too long.
    TooLong,
    /// The handle holds no machine.
    NoMachine,
    /// The machine's store has no file of this name.
    NoFile,
    /// No run has so many turns, or the machine can't count that many more.
    TooMany,
}

impl Status {
    /// The number by which C knows it.
    #[tactic(auto, unfolding(crate::specs::Statuses::number_of_status))]
    pub fn number(self) -> i32
        ensures { result ≡ number_of_status self }
    {
        match self {
            Status::Done => 0,
            Status::NoMemory => 1,
            Status::BadSize => 2,
            Status::BadFiles => 3,
            Status::TooSmall => 4,
            Status::TooLong => 5,
            Status::NoMachine => 6,
            Status::NoFile => 7,
            Status::TooMany => 8,
        }
    }
}

impl From<NoMemory> for Status {
    ghost use Rattle.p11_handles.specs.declared.status.Status.TheVariants as status;

    ghost from_gives = { λ _ e. e ≡ status.NoMemory };

    fn from(_: NoMemory) -> Self {
        Status::NoMemory
    }
}

impl From<AllocError> for Status {
    ghost use Rattle.p11_handles.specs.declared.status.Status.TheVariants as status;

    ghost from_gives = { λ _ e. e ≡ status.NoMemory };

    fn from(_: AllocError) -> Self {
        Status::NoMemory
    }
}

impl<T: Drop> From<AllocFailed<T>> for Status {
    ghost use Rattle.p11_handles.specs.declared.status.Status.TheVariants as status;

    ghost from_gives = { λ _ e. e ≡ status.NoMemory };

    fn from(_: AllocFailed<T>) -> Self {
        Status::NoMemory
    }
}
