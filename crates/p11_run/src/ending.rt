//! The exit status and the message of each way in which the program ends.
ghost use Rattle.std.specs.Prelude.{◌≡◌};
ghost use Rattle.p11_run.specs.Endings.{cause_of, status_of, text_of};
ghost use Rattle.p11_run.specs.declared.ending.Cause.TheVariants as causes;

use p11_arguments::Unasked;
use p11_panel::{Fault, NoMemory, SessionFault};
use std::alloc::{AllocError, AllocFailed};

/// Why the program ends.
#[derive(Drop)]
pub enum Cause {
    /// The script's end.
    Done,
    /// Help or the version was asked for: its text.
    Help(String),
    /// The command line is refused: why, and how to write it.
    Usage(String),
    /// An argument is no text.
    NotUtf8,
    /// No machine has the sizes that were asked for.
    BadSize,
    /// The folder of the files isn't there.
    NoFolder,
    /// There was no memory before the session began.
    NoMemory,
    /// The session ended before its script did.
    Session(SessionFault),
}

/// The exit status, and what is said: of help on standard output, and else on standard error.
pub fn ending(cause: &Cause) -> (u8, &str)
    ensures status { result.0 ≡ status_of cause.now }
    ensures text { result.1.now ≡ text_of cause.now }
{
    match cause {
        Cause::Done => (0, ""),
        Cause::Help(text) => (0, text.as_str()),
        Cause::Usage(text) => (2, text.as_str()),
        Cause::NotUtf8 => (2, "p11: arguments are not UTF-8\n"),
        Cause::BadSize => (2, "? 15 BadSize\n"),
        Cause::NoFolder => (1, "p11: the folder of --files isn't there\n"),
        Cause::NoMemory => (3, "p11: no memory\n"),
        Cause::Session(SessionFault::Reading) => (1, "p11: read fault\n"),
        Cause::Session(SessionFault::Writing) => (1, "p11: write fault\n"),
        Cause::Session(SessionFault::TooLong) => (1, "p11: script too long\n"),
    }
}

impl From<NoMemory> for Cause {
    ghost from_gives = { λ _ e. e ≡ causes.NoMemory };

    fn from(_: NoMemory) -> Self {
        Cause::NoMemory
    }
}

impl<T: Drop> From<AllocFailed<T>> for Cause {
    ghost from_gives = { λ _ e. e ≡ causes.NoMemory };

    fn from(_: AllocFailed<T>) -> Self {
        Cause::NoMemory
    }
}

impl From<AllocError> for Cause {
    ghost from_gives = { λ _ e. e ≡ causes.NoMemory };

    fn from(_: AllocError) -> Self {
        Cause::NoMemory
    }
}

impl From<Unasked> for Cause {
    ghost from_gives = { λ reason cause. cause ≡ cause_of reason };

    fn from(reason: Unasked) -> Self {
        match reason {
            Unasked::Help(text) => Cause::Help(text),
            Unasked::Usage(text) => Cause::Usage(text),
            Unasked::BadNumber => Cause::BadSize,
            Unasked::NoMemory => Cause::NoMemory,
        }
    }
}

impl From<SessionFault> for Cause {
    ghost from_gives = { λ fault e. e ≡ causes.Session fault };

    fn from(fault: SessionFault) -> Self {
        Cause::Session(fault)
    }
}
