// What the texts of answers are written to.
ghost use Rattle.std.specs.Prelude.{◌≡◌, [], ◌∷◌, None};
ghost use Rattle.std.specs.Io.{WritesAtMost};
ghost use Rattle.std.specs.Io.KnownBytes.{WriteAppends};
ghost use Rattle.p11_lines.specs.Writers.{with_calls};
ghost use Rattle.p11_lines.specs.Calls.Writing.{took_some};

use std::io;
use std::io::Write;

/// A writer of which contracts know the bytes, as they do of std's writers, and also how each of its writes ended;
/// each where the implementation tells it.
pub trait Sink {
    ghost use Rattle.p11_lines.specs.Writers.{WriterState};

    ghost state: { Self → WriterState };

    /// Takes a front of some bytes: how many they are. The error is the writer's own; nothing is taken then.
    fn write(&mut self, bytes: &[u8]) -> io::Result<usize>
        ensures bound { WritesAtMost result bytes.now }
        ensures bytes { WriteAppends (state self.old).bytes (state self.new).bytes result bytes.now }
        ensures calls { (state self.new).writes ≡ with_calls (state self.old).writes (took_some result ∷ []) };
}

/// A writer of std's as a sink, which doesn't tell its writes.
#[derive(Drop)]
pub struct StdWriter<W> {
    pub inner: W,
}

impl<W: Write> Sink for StdWriter<W> {
    ghost state = { λ w. record { bytes = W.contents w.inner; writes = None } };

    fn write(&mut self, bytes: &[u8]) -> io::Result<usize> {
        self.inner.write(bytes)
    }
}
