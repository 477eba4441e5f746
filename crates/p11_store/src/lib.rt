//! A store of files by their names, which the lines of a session load from and save to, and one in memory.
#![tactic(auto)]

mod memory_store;
mod store;

pub use memory_store::MemoryStore;
pub use store::{Refusals, Store, StoreError};
