//! The pace of the machine's turns, by the host's clock.
ghost use Rattle.std.specs.Prelude.{◌≡◌, ◌<◌};

/// The nanoseconds of a second (decimal).
const SECOND: u64 = 1_000_000_000;

/// No turns are made of less, in nanoseconds (decimal).
const SHORTEST: u64 = 4_000_000;

/// Turns are made up for so long at most, in nanoseconds (decimal).
const LONGEST: u64 = 50_000_000;

/// So many turns in a second at most, and up to which time of the host's clock they were made, in nanoseconds.
#[derive(Clone, Copy)]
pub struct Pace {
    speed: u32,
    paid: u64,
    ghost moves: { 0 < speed },
}

impl Pace {
    ghost use Rattle.p11_host.specs.Clocks.{allowed, paid_behind};

    /// A pace of which no turn was made.
    pub fn new(speed: u32) -> Self
        requires { 0 < speed }
        ensures speed { result.speed ≡ speed }
        ensures paid { result.paid ≡ 0 }
    {
        Pace { speed, paid: 0 }
    }

    /// How many turns may be made at this time.
    pub fn allowed(&self, now: u64) -> u32
        ensures { result ≡ allowed self.now now }
    {
        let time = now.saturating_sub(self.paid);
        if time < SHORTEST {
            return 0;
        }
        (u64::from(self.speed) * time.min(LONGEST) / SECOND) as u32
    }

    /// So many turns were made at this time.
    pub fn made(&mut self, now: u64, turns: u32)
        ensures speed { self.new.speed ≡ self.old.speed }
        ensures paid { self.new.paid ≡ paid_behind self.old now turns }
    {
        let begun = self.paid.max(now.saturating_sub(LONGEST));
        self.paid = begun.saturating_add(u64::from(turns) * SECOND / u64::from(self.speed));
    }
}
