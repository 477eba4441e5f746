//! What the library for C holds and hands out: a machine or a console behind a pointer of C's, files in rows of bytes, and
//! what its calls answer.
#![tactic(auto)]

mod console_handle;
mod console_slot;
mod handing;
mod handle;
mod held_console;
mod held_machine;
mod host_words;
mod raw_box;
mod registers;
mod rows;
mod run;
mod script;
mod session;
mod slot;
mod status;
mod store;
mod typed;

pub use console_handle::{ConsoleHandle, new_console};
pub use console_slot::ConsoleSlot;
pub use handing::{hand_devices, hand_front, hand_wanted};
pub use handle::{Handle, hand_file, hand_files, hand_text, hand_typed, new_machine};
pub use held_console::HeldConsole;
pub use held_machine::HeldMachine;
pub use host_words::{number_of_bool, number_of_want};
pub use registers::{Registers, tell_registers};
pub use rows::rows_read_back;
pub use run::Run;
pub use session::{Given, hand_out, play, play_typed};
pub use slot::Slot;
pub use status::Status;
