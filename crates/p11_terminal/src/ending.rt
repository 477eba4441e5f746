// How the program ends.
use p11_panel::NoMemory;
use p11_shown::OutletFault;
use std::alloc::AllocError;

/// Why the program ends.
#[derive(Drop)]
pub(crate) enum Cause {
    /// The end of the dialogue, with this status (decimal). What is wrong was said already.
    Done(u8),
    /// Help or the version was asked for: its text.
    Help(String),
    /// The command line is refused: why, and how to write it.
    Usage(String),
    /// An argument is no text.
    NotUtf8,
    /// No machine has the sizes that were asked for.
    BadSize,
    /// No run has slices of that many turns.
    BadSlice,
    /// No terminal has so many bits.
    BadBits,
    /// No mains have so many cycles.
    BadHertz,
    /// No pace has so many turns.
    BadSpeed,
    /// There was no memory to go on.
    NoMemory,
    /// The record's file can't be made.
    NoRecord,
    /// The history's file can't be read and written.
    NoHistory,
    /// The folder of the files isn't there.
    NoFolder,
    /// Standard output or standard error failed.
    Writing,
    /// The input can't be read.
    Reading,
}

impl From<AllocError> for Cause {
    fn from(_: AllocError) -> Self {
        Cause::NoMemory
    }
}

impl From<NoMemory> for Cause {
    fn from(_: NoMemory) -> Self {
        Cause::NoMemory
    }
}

impl From<OutletFault> for Cause {
    fn from(fault: OutletFault) -> Self {
        match fault {
            OutletFault::NoMemory => Cause::NoMemory,
            OutletFault::Writing => Cause::Writing,
        }
    }
}

/// The exit status, and what is said: of help on standard output, and else on standard error.
pub(crate) fn ending(cause: &Cause) -> (u8, &str) {
    match cause {
        Cause::Done(status) => (*status, ""),
        Cause::Help(text) => (0, text.as_str()),
        Cause::Usage(text) => (2, text.as_str()),
        Cause::NotUtf8 => (2, "terminal: arguments are not UTF-8\n"),
        Cause::BadSize => (
            2,
            "terminal: --memory is 4 to 124, in steps of 4, and --lines 0 to 4096\n",
        ),
        Cause::BadSlice => (2, "terminal: --slice is 1 to 100000000 turns\n"),
        Cause::BadBits => (2, "terminal: --bits is 7 or 8\n"),
        Cause::BadHertz => (2, "terminal: --hz is 60, 50 or off\n"),
        Cause::BadSpeed => (2, "terminal: --speed is 1000 to 100000000 turns a second\n"),
        Cause::NoMemory => (3, "terminal: no memory\n"),
        Cause::NoRecord => (1, "terminal: the record's file can't be made\n"),
        Cause::NoHistory => (
            1,
            "terminal: the history's file can't be read and written\n",
        ),
        Cause::NoFolder => (1, "terminal: the folder of --files isn't there\n"),
        Cause::Writing => (1, "terminal: write fault\n"),
        Cause::Reading => (1, "terminal: read fault\n"),
    }
}
