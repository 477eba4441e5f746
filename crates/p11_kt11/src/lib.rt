//! The KT11-D memory management unit of the PDP-11/40: translation, its registers, and what an abort leaves in them.
//!
//! A virtual address has 16 bits: 15:13 the page, 12:6 the block of 64 bytes in the page, 5:0 the byte in the block.
//! A physical address has 18 bits. Kernel mode and user mode have eight pages each, a page an address register (PAR)
//! and a descriptor register (PDR). SR0 has the causes, the mode and the page of an abort, and the bit that turns
//! mapping on. SR2 has the virtual PC of the instruction. Names of fields and registers are those of the PDP-11/40
//! processor handbook.
#![tactic(auto)]

mod entry;
mod kept;
mod kt11;
mod laws;
mod page;
mod reference;
mod register;
mod status;
mod window;

pub use entry::{Entries, Entry};
pub use kt11::Kt11;
pub use laws::{
    entries_serve_the_translation, entry_serves_its_page, only_the_top_goes_to_the_io_page,
    registers_stand_on_the_io_page, same_pages_same_place, same_reference_same_answer,
    translation_keeps_pages, translation_keeps_user_off_io_page, user_addresses_have_16_bits,
    user_translation_keeps_all_else, user_translation_keeps_the_reach,
};
pub use page::Page;
pub use reference::{Abort, Causes, Kind};
pub use register::{Register, Space};
pub use status::Status;
