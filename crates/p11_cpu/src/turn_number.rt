//! The number of a turn.
ghost use Rattle.std.specs.Prelude.{◌≡◌, ◌≤◌, ◌<◌, ◌+◌, ◌-◌, ◌^◌};

use std::marker::Model;

/// The number of a turn, 2^62 at most. A contract sees it as that number.
#[derive(Clone, Copy)]
pub(crate) struct TurnNumber {
    pub number: u64,
}

impl Model for TurnNumber {
    ghost use Rattle.std.specs.Prelude.{ℕ, ◌≤◌, ◌^◌};

    ghost Value = { ℕ };

    ghost view = { λ t. t.number };

    ghost invariant = { λ t. t.number ≤ 2 ^ 62 };

    ghost inverse = { λ n. record { number = n } };
}

impl TurnNumber {
    /// The next number.
    pub fn next(self) -> Self
        requires { self < 2 ^ 62 }
        ensures { result ≡ self + 1 }
    {
        TurnNumber {
            number: self.number + 1,
        }
    }

    /// The number before.
    pub fn before(self) -> Self
        requires { 0 < self }
        ensures { result + 1 ≡ self }
    {
        TurnNumber {
            number: self.number - 1,
        }
    }

    /// How many turns it is after another.
    pub fn since(self, turns: TurnNumber) -> u32
        requires after { turns ≤ self }
        requires fits { self - turns < 2 ^ 32 }
        ensures { result ≡ self - turns }
    {
        (self.number - turns.number) as u32
    }

    /// The number of the turn that many turns later.
    pub fn plus(self, turns: u32) -> Self
        requires { self + turns ≤ 2 ^ 62 }
        ensures { result ≡ self + turns }
    {
        TurnNumber {
            number: self.number + u64::from(turns),
        }
    }

    /// How many of so many turns that follow this one come before another.
    #[inline(always)]
    pub fn count_before(self, other: u64, most: u32) -> u32
        ensures before { self < other → self + result < other }
        ensures bound { result ≤ most }
    {
        let left = other.saturating_sub(self.number + 1);
        if left < u64::from(most) {
            left as u32
        } else {
            most
        }
    }
}
