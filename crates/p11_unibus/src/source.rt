//! What requests interrupts: vector and level of each source.
ghost use Rattle.std.specs.Prelude.{◌≡◌, Some};
ghost use Rattle.p11_psw.specs.Calls.Levels.{vector_level};
ghost use Rattle.p11_unibus.specs.Requests.{row};

use p11_psw::{Priority, Vector};

/// What requests interrupts.
#[derive(Clone, Copy)]
pub enum Source {
    /// The line clock.
    Clock,
    /// The disk controller.
    Disk,
    /// The console line's receiver.
    Receiver,
    /// The console line's transmitter.
    Transmitter,
}

impl Source {
    /// The vector through which it interrupts.
    pub fn vector(self) -> Vector
        ensures { result ≡ (row self).vector }
    {
        match self {
            Source::Clock => Vector::Clock,
            Source::Disk => Vector::Disk,
            Source::Receiver => Vector::Receiver,
            Source::Transmitter => Vector::Transmitter,
        }
    }

    /// The level at which it interrupts, which is that of its vector.
    pub fn level(self) -> Priority
        ensures level { result ≡ (row self).level }
        ensures vector { vector_level (row self).vector ≡ Some result }
    {
        match self {
            Source::Clock => Priority::Level6,
            Source::Disk => Priority::Level5,
            Source::Receiver => Priority::Level4,
            Source::Transmitter => Priority::Level4,
        }
    }
}
