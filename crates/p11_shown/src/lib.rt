//! Which bytes of a guest pass to a terminal.
//!
//! Nothing here reads or writes. `Screen::pass` takes what is typed for a screen, cut anywhere, and gives what a terminal may
//! be given: what programs for a VT52, a VT100 or a VT102 need. All else is shown by printing bytes. A terminal of seven bits
//! gets the machine's bytes without their parity.
#![tactic(auto)]

mod bits;
mod outlet;
mod phase;
mod readable;
mod screen;

pub use bits::{Bits, sent_of};
pub use outlet::{Outlet, OutletFault};
pub use phase::{Phase, Verdict};
pub use screen::Screen;
