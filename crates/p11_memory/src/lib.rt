//! Memory: the list of its words, what a device reaches of it, and the store that holds it.
#![tactic(auto)]

mod memory;
mod words;

pub use memory::Memory;
pub use words::WordMemory;
