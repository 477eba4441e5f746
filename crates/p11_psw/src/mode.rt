//! The modes of the processor, two bits each.
ghost use Rattle.std.specs.Prelude.{◌≡◌, ◌<◌};
ghost use Rattle.p11_psw.specs.Fields.{joined_mode, mode_at, mode_number};

/// A mode of the processor, as two bits of the status word. Modes 01 and 10 are unused.
#[derive(Clone, Copy, Debug, PartialEq, Eq)]
pub enum Mode {
    Kernel,
    Mode01,
    Mode10,
    User,
}

impl Mode {
    /// The mode's two bits, as a number from 0 to 3.
    pub fn number(self) -> u16
        ensures value { result ≡ mode_number self }
        ensures bound { result < 4 }
    {
        match self {
            Mode::Kernel | Mode::Mode01 | Mode::Mode10 | Mode::User => self as u16,
        }
    }

    /// The mode that two bits say, as a number from 0 to 3: 0 is kernel, 3 user.
    pub fn from_number(number: u16) -> Mode
        requires { number < 4 }
        ensures { result ≡ mode_at number }
    {
        match number {
            0 => Mode::Kernel,
            1 => Mode::Mode01,
            2 => Mode::Mode10,
            _ => Mode::User,
        }
    }

    /// The mode that has each bit which this mode or the other has.
    #[tactic(auto, using(crate::proofs::Modes::joined_below))]
    pub fn joined(self, other: Mode) -> Mode
        ensures { result ≡ joined_mode self other }
    {
        Mode::from_number(self.number() | other.number())
    }
}
