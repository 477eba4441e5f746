//! The line clock, which ticks by the host's clock.
ghost use Rattle.std.specs.Prelude.{◌≡◌, ◌≤◌, ◌+◌, nat_lt, if◌then◌else◌};
ghost use Rattle.p11_host.specs.Clocks.{cycles, ticks_in, late, left_out, time_of, nap, slice_turns};

/// The nanoseconds of a second (decimal).
const SECOND: u128 = 1_000_000_000;

/// The longest sleep, in nanoseconds (decimal).
const LONGEST_NAP: u128 = 20_000_000;

/// The most turns of a slice between two ticks (decimal).
const MOST_TURNS: u32 = 20_000;

/// The cycles of the mains in a second, each of which makes the line clock tick.
#[derive(Clone, Copy, PartialEq, Eq)]
pub enum Hertz {
    Fifty,
    Sixty,
}

/// A line clock, which began at a time of the host's clock, in nanoseconds.
#[derive(Clone, Copy)]
pub struct LineClock {
    hertz: Hertz,
    began: u64,
    /// The ticks that were given, or left out.
    told: u64,
}

fn cycles(hertz: Hertz) -> u64
    ensures { result ≡ cycles hertz }
{
    match hertz {
        Hertz::Fifty => 50,
        Hertz::Sixty => 60,
    }
}

/// How many ticks come in so many nanoseconds.
fn ticks_in(hertz: Hertz, time: u64) -> u64
    ensures { result ≡ ticks_in hertz time }
{
    let time = u128::from(time);
    let ticks = match hertz {
        Hertz::Fifty => time * 50 / SECOND,
        Hertz::Sixty => time * 60 / SECOND,
    };
    ticks as u64
}

/// How many nanoseconds behind its beginning a clock makes a tick.
fn time_of(hertz: Hertz, number: u128) -> u128
    requires { number ≤ 18446744073709551616 }
    ensures { result ≡ time_of hertz number }
{
    match hertz {
        Hertz::Fifty => (number * SECOND + 49) / 50,
        Hertz::Sixty => (number * SECOND + 59) / 60,
    }
}

impl LineClock {
    /// A clock that begins at this time.
    pub fn new(hertz: Hertz, began: u64) -> Self
        ensures { result ≡ record { hertz = hertz; began = began; told = 0 } }
    {
        LineClock {
            hertz,
            began,
            told: 0,
        }
    }

    fn late(&self, now: u64) -> u64
        ensures { result ≡ late self.now now }
    {
        ticks_in(self.hertz, now.saturating_sub(self.began)).saturating_sub(self.told)
    }

    /// Leaves out those of the ticks that are late which come before the last second, as behind a stop of the host: how many.
    pub fn leave_out(&mut self, now: u64) -> u64
        ensures count { result ≡ left_out self.old now }
        ensures clock { self.new ≡ record self.old { told = self.old.told + left_out self.old now } }
    {
        let count = self.late(now).saturating_sub(cycles(self.hertz));
        self.told += count;
        count
    }

    /// Gives a tick, if one is late: whether it does.
    pub fn tick(&mut self, now: u64) -> bool
        ensures is_late { result ≡ nat_lt 0 (late self.old now) }
        ensures clock { self.new ≡ (if nat_lt 0 (late self.old now) then record self.old { told = self.old.told + 1 } else self.old) }
    {
        if self.late(now) == 0 {
            return false;
        }
        self.told += 1;
        true
    }

    /// How many nanoseconds the host may sleep while the machine waits.
    pub fn nap(&self, now: u64) -> u64
        ensures { result ≡ nap self.now now }
    {
        let next = time_of(self.hertz, u128::from(self.told) + 1);
        let left = next.saturating_sub(u128::from(now.saturating_sub(self.began)));
        left.min(LONGEST_NAP) as u64
    }
}

/// The turns of a slice, so that the line clock can tick behind it.
pub fn slice_turns(slice: u32, has_clock: bool) -> u32
    ensures { result ≡ slice_turns slice has_clock }
{
    if has_clock {
        slice.min(MOST_TURNS)
    } else {
        slice
    }
}
