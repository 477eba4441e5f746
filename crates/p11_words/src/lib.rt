//! What several crates say of words and of turns: a flag as a bit, a bit of a word, and when an act is due.
#![tactic(auto)]

mod bits;
mod due;

pub use bits::{bit, flag};
pub use due::is_due;
