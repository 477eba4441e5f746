//! Which PDP-11/40 instruction a word is.
//!
//! `decode` answers for each of the 65,536 words, by the processor handbook's instruction table, which stands as rows
//! in `specs/Table.antt`. A word that no row fits is `Op::Reserved`.
#![tactic(auto)]

mod decoding;
mod equality;
mod groups;
mod laws;
mod op;
mod operand;

pub use decoding::decode;
pub use equality::same;
pub use groups::{CodesOp, CompareOp, ModifyOp, ReturnOp, SingleOp, StoreOnlyOp, TrapOp};
pub use laws::{at_most_one_row_fits, the_row_that_fits_decides};
pub use op::{Condition, Count, NamedCodes, Op};
pub use operand::{Mode, Operand, Register, Size};
