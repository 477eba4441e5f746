//! The DL11 asynchronous line interface, to which the operator's console is attached.
#![tactic(auto)]

mod keys;
mod laws;
mod line;
mod receiver;
mod register;
mod status;
mod transmitter;

pub use laws::{
    due_turns_are_later, due_turns_stay_until_due, init_twice_is_init_once,
    nothing_happens_before_due, receiver_acts_when_due, transmitter_acts_when_due,
};
pub use line::{Dl11, KeysFull};
pub use register::{Register, Section};
pub use transmitter::Sending;
