//! The operator's console as a state machine: it is given events, and gives bytes to write and requests to its host.
//!
//! Nothing here reads or writes. `Console::keys` takes what a keyboard gives, `step` does one thing, and `screen` and `record`
//! are what there is to write. A file is asked for by `Want::Fetch` and `Want::Put`.
#![tactic(auto)]

mod console;
mod files;
mod laws;
mod packs;
mod reasons;
mod slices;
mod tries;
mod trouble;

pub use console::Console;
pub use laws::a_step_has_one_outcome;
pub use p11_dialogue::{Manner, Settings, Want};
pub use trouble::{PutFault, Trouble};
