//! The command line of a PDP-11/40: `p11 [OPTION ..] SCRIPT`, as it is read from its words.
#![tactic(auto)]

mod arguments;

pub use arguments::{Asked, Unasked, read_command_line};
