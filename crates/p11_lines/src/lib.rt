//! The operator's language: the lines of a script, and the texts of the answers.
#![tactic(auto)]

mod answer;
mod bytes;
mod devices;
mod disks;
mod escape;
mod fault;
mod keys;
mod line;
mod line_end;
mod output;
mod packs;
mod parse;
mod run;
mod sink;
mod tapes;
mod text;
mod words;

pub use answer::{Answer, Devices, ManagementRegisters, Mark, Registers, StopReason};
pub use bytes::Bytes;
pub use fault::{Fault, NoMemory};
pub use line::{Line, MOST_TURNS};
pub use line_end::without_return;
pub use output::{Broken, put_answer};
pub use parse::parse_line;
pub use sink::{Sink, StdWriter};
pub use text::{line_of, text_reads_back};
pub use words::Words;
