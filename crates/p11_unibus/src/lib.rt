//! The Unibus of a PDP-11/40, with what stands on it: memory, the line clock, the console line, the disk controller
//! with its drives, and the switch register.
//!
//! What shows at an address, what a write leaves and what a read leaves are one definition each (`specs/Bus.antt`), and
//! all references, in words and bytes, follow from these three.
#![tactic(auto)]

mod acts;
mod attached;
mod bytes;
mod device;
mod devices;
mod due;
mod events;
mod laws;
mod references;
mod register;
mod requests;
mod source;
mod typed;
mod unibus;
mod written;

pub use bytes::{TimeOut, byte_of, even_address, replace_byte};
pub use device::Device;
pub use devices::{BusDevices, DiskRegisters, DriveShown};
pub use due::DueTurns;
pub use laws::{
    a_byte_is_read_back, a_turn_in_which_no_device_acts_changes_nothing,
    a_word_written_to_memory_shows, an_odd_address_answers_nowhere, memory_ends_below_the_io_page,
    nothing_happens_where_nothing_is_due, registers_stand_on_the_io_page,
    the_acts_write_words_of_a_disk_read_alone, the_highest_request_is_granted,
    the_next_due_turn_is_the_first_in_which_a_device_acts,
};
pub use p11_memory::Memory;
pub use references::is_transmitter_high_byte;
pub use register::Register;
pub use source::Source;
pub use unibus::Unibus;
pub use written::Written;
