// One read of a source.
ghost use Rattle.std.specs.Prelude.{◌≡◌};
ghost use Rattle.p11_panel.specs.Calls.Reads.{read_into};

use std::io;

/// A read: for how many bytes it had room, and how many it gave, none being the end; no number for one that failed.
#[derive(Clone, Copy, Drop)]
pub struct ReadCall {
    pub room: usize,
    pub gave: Option<usize>,
}

impl ReadCall {
    /// The read into a buffer that ended so.
    pub fn into_buffer(buffer: &[u8], given: &io::Result<usize>) -> ReadCall
        ensures { result ≡ read_into buffer.now given.now }
    {
        ReadCall {
            room: buffer.len(),
            gave: match given {
                Ok(count) => Some(*count),
                Err(_) => None,
            },
        }
    }
}
