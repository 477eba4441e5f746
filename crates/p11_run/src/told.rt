// A reader and a writer of std's which tell contracts how each of their calls ended.
ghost use Rattle.std.specs.Prelude.{◌≡◌, [], Some};
ghost use Rattle.p11_lines.specs.Calls.Writing.{took_some};

use p11_files::ToldEnds;
use p11_panel::{ReadCall, Sink, Source, ToldReads};
use std::io;
use std::io::{Read, Write};

/// A reader of std's as a source, which tells its reads.
#[derive(Drop)]
pub(crate) struct ToldReader<R> {
    inner: R,
    reads: ToldReads,
}

/// A writer of std's as a sink, which tells its writes.
#[derive(Drop)]
pub(crate) struct ToldWriter<W> {
    inner: W,
    writes: ToldEnds,
}

impl<R: Read> ToldReader<R> {
    /// No read yet.
    pub(crate) fn new(inner: R) -> Self
        ensures inner { R.remaining result.inner ≡ R.remaining inner }
        ensures reads { result.reads.made ≡ [] }
    {
        let reads = ToldReads::new();
        ToldReader { inner, reads }
    }
}

impl<W: Write> ToldWriter<W> {
    /// No write yet.
    pub(crate) fn new(inner: W) -> Self
        ensures inner { W.contents result.inner ≡ W.contents inner }
        ensures writes { result.writes.made ≡ [] }
    {
        let writes = ToldEnds::new();
        ToldWriter { inner, writes }
    }
}

/// Whether a write took some bytes: it neither failed nor took nothing.
fn has_taken(taken: &io::Result<usize>) -> bool
    ensures { result ≡ took_some taken.now }
{
    match taken {
        Ok(count) => *count > 0,
        Err(_) => false,
    }
}

impl<R: Read> Source for ToldReader<R> {
    ghost state = { λ r. record { left = R.remaining r.inner; reads = Some r.reads.made } };

    fn read(&mut self, bytes: &mut [u8]) -> io::Result<usize> {
        let given = self.inner.read(bytes);
        self.reads = self.reads.then(&ReadCall::into_buffer(bytes, &given));
        given
    }
}

impl<W: Write> Sink for ToldWriter<W> {
    ghost state = { λ w. record { bytes = W.contents w.inner; writes = Some w.writes.made } };

    fn write(&mut self, bytes: &[u8]) -> io::Result<usize> {
        let taken = self.inner.write(bytes);
        self.writes = self.writes.then(&has_taken(&taken));
        taken
    }
}
