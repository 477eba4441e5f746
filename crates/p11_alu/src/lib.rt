//! The arithmetic of a PDP-11 with its condition codes, as the processor handbook gives them with
//! each instruction.
//!
//! A word is a `u16`. A byte travels in one too: a call at `Size::Byte` looks at the low byte of its
//! operands alone, and its result is below 256. No call has a condition, and none takes memory.
#![tactic(auto)]

mod codes;
mod counted;
mod direction;
mod moves;
mod pair;
mod products;
mod quotient;
mod results;
mod size;

pub use codes::Codes;
pub use counted::{ash, ashc};
pub use direction::Direction;
pub use moves::{rotate, shift, swab};
pub use pair::Pair;
pub use products::{div, mul, one_quotient};
pub use quotient::Quotient;
pub use results::{adc, add, carry_rules, cmp, dec, inc, logic, neg, sbc, sub};
pub use size::Size;
