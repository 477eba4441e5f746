//! The priority of the processor, and the level of an interrupt.
ghost use Rattle.std.specs.Prelude.{◌≡◌, ◌<◌, nat_lt};
ghost use Rattle.p11_psw.specs.Fields.{priority_at, priority_number};

/// A priority of the processor, or the level at which a device interrupts: 0 to 7.
#[derive(Clone, Copy, Debug, PartialEq, Eq)]
pub enum Priority {
    Level0,
    Level1,
    Level2,
    Level3,
    Level4,
    Level5,
    Level6,
    Level7,
}

impl Priority {
    /// The level as a number from 0 to 7, as it stands in bits 7:5 of the status word.
    #[inline(always)]
    pub fn number(self) -> u16
        ensures value { result ≡ priority_number self }
        ensures bound { result < 8 }
    {
        match self {
            Priority::Level0 => 0,
            Priority::Level1 => 1,
            Priority::Level2 => 2,
            Priority::Level3 => 3,
            Priority::Level4 => 4,
            Priority::Level5 => 5,
            Priority::Level6 => 6,
            Priority::Level7 => 7,
        }
    }

    /// The priority that three bits say, as a number from 0 to 7.
    #[inline(always)]
    pub fn from_number(number: u16) -> Priority
        requires { number < 8 }
        ensures { result ≡ priority_at number }
    {
        match number {
            0 => Priority::Level0,
            1 => Priority::Level1,
            2 => Priority::Level2,
            3 => Priority::Level3,
            4 => Priority::Level4,
            5 => Priority::Level5,
            6 => Priority::Level6,
            _ => Priority::Level7,
        }
    }

    /// Whether a request at this level interrupts a processor of the other priority.
    pub fn is_above(self, other: Priority) -> bool
        ensures { result ≡ nat_lt (priority_number other) (priority_number self) }
    {
        other.number() < self.number()
    }
}
