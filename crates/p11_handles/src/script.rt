// A script in memory, as a session reads it.
ghost use Rattle.std.specs.Prelude.{◌≡◌, [], length, Some};
ghost use Rattle.p11_handles.specs.ScriptReads.{Filled, Filled-prop};

use p11_panel::{ReadCall, Source, ToldReads};
use std::io;

/// The bytes of a script that are left to read. It tells its reads, none of which fails.
#[derive(Drop)]
pub(crate) struct Script<'a> {
    left: &'a [u8],
    reads: ToldReads,
    ghost filled: { Filled reads.made (length left.now) } by { Filled-prop reads.made (length left.now) },
}

impl<'a> Script<'a> {
    /// A script of which nothing is read yet.
    pub(crate) fn new(left: &'a [u8]) -> Self
        ensures left { result.left.now ≡ left.now }
        ensures reads { result.reads.made ≡ [] }
    {
        let reads = ToldReads::new();
        Script { left, reads }
    }
}

impl Source for Script<'_> {
    ghost state = { λ s. record { left = Some s.left.now; reads = Some s.reads.made } };

    fn read(&mut self, bytes: &mut [u8]) -> io::Result<usize> {
        let count = self.left.len().min(bytes.len());
        let (front, rest) = self.left.split_at(count);
        bytes[..count].copy_from_slice(front);
        let given = Ok(count);
        self.reads = self.reads.then(&ReadCall::into_buffer(bytes, &given));
        self.left = rest;
        given
    }
}
