// Why the host can't do what a console wants.
use p11_panel::StoreError;

/// Why the bytes of a file can't be had.
#[derive(Clone, Copy)]
pub struct Trouble {
    pub error: StoreError,
    /// In a few words, for a person.
    pub reason: &'static str,
}

/// Why a file isn't written.
#[derive(Clone, Copy)]
pub enum PutFault {
    /// A file of this name is there, and wasn't to be written over.
    There,
    /// It can't be written, for this reason in a few words.
    Refused { reason: &'static str },
}
