//! The KW11-L line clock.
#![tactic(auto)]

mod clock;
mod laws;
mod register;

pub use clock::Kw11;
pub use laws::{init_twice_is_init_once, nothing_happens_before_the_due_turn};
pub use register::Register;
