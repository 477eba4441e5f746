//! What the host of a dialogue decides, beside its reads and writes.
#![tactic(auto)]

mod clock;
mod ended;
mod pace;
mod past;
mod rescue;

pub use clock::{Hertz, LineClock, slice_turns};
pub use ended::{Course, End, end_of};
pub use pace::Pace;
pub use past::is_typed;
pub use rescue::rescue_mode;
