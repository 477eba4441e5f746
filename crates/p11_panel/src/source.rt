// What the bytes of a script are read from.
ghost use Rattle.std.specs.Prelude.{◌≡◌, [], ◌∷◌, ◌++◌, None, List};
ghost use Rattle.std.specs.Borrow.{ftrue};
ghost use Rattle.std.specs.Io.{ReadsAtMost};
ghost use Rattle.std.specs.Io.KnownBytes.{ReadConsumes};
ghost use Rattle.p11_lines.specs.Writers.{with_calls};
ghost use Rattle.p11_panel.specs.Calls.Reads.{read_into};
ghost use Rattle.p11_panel.specs.declared.read_call.ReadCall.{ReadCall};
ghost use Rattle.p11_panel.specs.Kept.Told.{reads_code};

use crate::read_call::ReadCall;
use std::io;
use std::io::Read;
use std::marker::Model;

/// A reader of which contracts know the bytes that are left, as they do of std's readers, and also how many bytes each
/// of its reads gave; each where the implementation tells it.
pub trait Source {
    ghost use Rattle.p11_panel.specs.Readers.{ReaderState};

    ghost state: { Self → ReaderState };

    /// Gives the next bytes: how many they are, and none at the end. The error is the reader's own; nothing is taken then.
    fn read(&mut self, bytes: &mut [u8]) -> io::Result<usize>
        ensures bound { ReadsAtMost result bytes.new }
        ensures bytes { ReadConsumes (state self.old).left (state self.new).left result bytes.new }
        ensures calls { (state self.new).reads ≡ with_calls (state self.old).reads (read_into bytes.new result ∷ []) };
}

/// The reads of a source, the first one first. It takes no bytes, and its methods do nothing at run time.
#[derive(Drop)]
pub struct ToldReads {
    pub ghost made: { List ReadCall } by { reads_code },
}

impl Model for ToldReads {
    ghost also_owns = { λ _. ftrue };
}

impl ToldReads {
    /// No read yet.
    pub fn new() -> ToldReads
        ensures { result.made ≡ [] }
    {
        ToldReads {}
    }

    /// These reads, and one more.
    pub fn then(&self, _read: &ReadCall) -> ToldReads
        ensures { result.made ≡ self.now.made ++ _read.now ∷ [] }
    {
        ToldReads {}
    }
}

/// A reader of std's as a source, which doesn't tell its reads.
#[derive(Drop)]
pub struct StdReader<R> {
    pub inner: R,
}

impl<R: Read> Source for StdReader<R> {
    ghost state = { λ r. record { left = R.remaining r.inner; reads = None } };

    fn read(&mut self, bytes: &mut [u8]) -> io::Result<usize> {
        self.inner.read(bytes)
    }
}
