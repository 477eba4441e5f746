//! The operator's console of a PDP-11/40: commands and their answers, lists of commands, and sessions over scripts.
#![tactic(auto)]

mod answering;
mod command;
mod config;
mod confined;
mod disk;
mod keys;
mod laws;
mod line_buffer;
mod loading;
mod panel;
mod playing;
mod range;
mod read_call;
mod refusal;
mod run;
mod script;
mod shown;
mod source;

pub use answering::obey;
pub use command::Command;
pub use config::Config;
pub use confined::a_user_run_is_confined;
pub use laws::{
    a_command_has_one_outcome, a_list_has_one_outcome, a_run_has_one_outcome, flush_shows_nothing,
    the_number_of_lines_shows_nothing,
};
pub use p11_lines::{
    Answer, Bytes, Devices, Fault, Line, MOST_TURNS, ManagementRegisters, Mark, NoMemory,
    Registers, Sink, StdWriter, StopReason, Words, line_of, parse_line,
};
pub use p11_store::{MemoryStore, Refusals, Store, StoreError};
pub use p11_unibus::{BusDevices, DiskRegisters, DriveShown};
pub use panel::Panel;
pub use playing::play;
pub use read_call::ReadCall;
pub use script::{SessionFault, session};
pub use source::{Source, StdReader, ToldReads};
