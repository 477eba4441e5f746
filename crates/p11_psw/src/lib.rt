//! The processor status word of the PDP-11/40, its three sources, the vectors of traps and interrupts, and the zones of
//! the kernel's stack.
#![tactic(auto)]

mod laws;
mod mode;
mod priority;
mod psw;
mod stack_limit;
mod vector;
mod zones;

pub use laws::{
    fields_stand_in_word, joined_mode_has_both_bits, user_return_stays_in_user_mode,
    word_gives_fields, word_has_16_bits,
};
pub use mode::Mode;
pub use priority::Priority;
pub use psw::Psw;
pub use stack_limit::zone;
pub use vector::Vector;
pub use zones::Zone;
