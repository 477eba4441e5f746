// Why bytes are no tape.
ghost use Rattle.std.specs.Prelude.{◌≡◌};

use std::alloc::AllocError;
use thiserror::Error;

/// What is wrong with a tape, or with the reading of one; and which offset goes with it.
#[derive(Clone, Copy, Debug, PartialEq, Eq, Error)]
pub enum TapeFaultKind {
    /// Where a block should begin, the first byte isn't 001 or the second isn't 000: that byte.
    #[error("stray byte")]
    Stray,
    /// A count that is less than the six bytes of the header: its low byte.
    #[error("count below 6")]
    Count,
    /// The tape ends inside a block: its end.
    #[error("cut short")]
    Short,
    /// Data past address 177777: the first byte of the block.
    #[error("data past the last address")]
    Wrap,
    /// The bytes of a block, the checksum among them, don't sum to 0 modulo 2^8: the checksum.
    #[error("wrong sum")]
    Sum,
    /// The bytes are a tape, and there was no memory for what they mean: 0.
    #[error("no memory")]
    Memory,
}

/// A fault, and its offset in bytes from the first byte of the tape.
#[derive(Clone, Copy, Debug, PartialEq, Eq, Error)]
#[error("{kind} at {at}")]
pub struct TapeFault {
    pub kind: TapeFaultKind,
    pub at: usize,
}

impl From<AllocError> for TapeFault {
    ghost use Rattle.p11_tape.specs.declared.fault.TapeFaultKind.TheVariants.{Memory};

    ghost from_gives = { λ _ e. e ≡ record { kind = Memory; at = 0 } };

    fn from(_: AllocError) -> Self {
        TapeFault {
            kind: TapeFaultKind::Memory,
            at: 0,
        }
    }
}
