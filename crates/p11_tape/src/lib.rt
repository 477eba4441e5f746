//! Absolute paper tapes of the PDP-11: which bytes are a tape, what a tape puts where in memory, and for all other
//! bytes the first fault with its place.
#![tactic(auto)]

mod block;
mod bytes;
mod fault;
mod laws;
mod tape;

pub use bytes::TapeBytes;
pub use fault::{TapeFault, TapeFaultKind};
pub use laws::{
    after_the_last_block, tapes_are_read_by_the_grammar, written_tape, written_tape_with_last_block,
};
pub use tape::{Tape, read_tape};
