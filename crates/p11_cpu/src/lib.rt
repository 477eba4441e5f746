//! The central processor of a PDP-11/40 with memory management and its bus, turn by turn.
//!
//! In a turn the machine runs one instruction. What it does is defined in `specs/`: `Turns.antt` has the turn,
//! `Instructions.antt` the steps of each instruction.
#![tactic(auto)]

mod bank;
mod bus;
mod codes;
mod decoded_bus;
mod double_operand;
mod drives;
mod extended_instructions;
mod hardware;
mod held;
mod laws;
mod machine;
mod management;
mod memory;
mod operand;
mod operands;
mod part;
mod previous_space;
mod processor_control;
mod program_control;
mod quiet;
mod quiet_turns;
mod references;
mod registers;
mod service;
mod signs;
mod single_operand;
mod trap;
mod turn;
mod turn_ends;
mod turn_number;
mod waiting;
mod words;

pub use laws::a_user_turn_is_confined;
pub use machine::Machine;
pub use registers::{ConsoleRegister, Registers};
pub use turn::Turn;
