//! The RK11 disk controller with its RK05 drives.
#![tactic(auto)]

mod acts;
mod address;
mod bay;
mod controller;
mod drives;
mod errors;
mod function;
mod laws;
mod mounted;
mod place;
mod register;
mod registers;
mod sector;

pub use controller::{DRIVES, Heads, Rk11};
pub use function::Function;
pub use laws::{
    control_status_shows_its_bits, due_turns_are_later, init_twice_is_init_once, memory_stays,
    nothing_happens_before_due, number_of_drives, places_and_numbers,
    running_transfers_have_a_place, words_of_a_written_sector, words_that_stay,
};
pub use mounted::PendingSeek;
pub use register::Register;
pub use sector::Stores;
