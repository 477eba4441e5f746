// The host's clock: ticks of the line clock, the pace of turns, and how long the host sleeps.
use crate::settings::Launch;
use p11_host::{Hertz, LineClock, Pace, slice_turns};
use std::time::{Clock, Duration};

/// How many nanoseconds it waits where nothing is pressed, and no tick comes before (decimal).
const PAUSE_NANOS: u64 = 20_000_000;

/// What the host's clock has to do with the machine.
#[derive(Clone, Copy)]
pub(crate) struct Timing {
    hertz: Option<Hertz>,
    /// The line clock, while it ticks.
    clock: Option<LineClock>,
    pace: Option<Pace>,
}

/// What the line clock does.
#[derive(Clone, Copy)]
pub(crate) struct Ticks {
    /// Whether it ticks.
    pub(crate) is_given: bool,
    /// How many ticks were left out.
    pub(crate) left_out: u64,
}

impl Timing {
    pub(crate) fn new(launch: &Launch<'_>) -> Self {
        let pace = match launch.speed {
            Some(speed) if speed > 0 => Some(Pace::new(speed)),
            _ => None,
        };
        Timing {
            hertz: launch.hertz,
            clock: None,
            pace,
        }
    }

    /// The turns of the next slice. Where there are none time has to pass.
    pub(crate) fn slice(&self, rt: &HostRuntime, slice: u32) -> u32 {
        let slice = slice_turns(slice, self.hertz.is_some());
        match (&self.pace, now(rt)) {
            (Some(pace), Some(now)) => slice.min(pace.allowed(now)),
            _ => slice,
        }
    }

    /// The machine has made turns.
    pub(crate) fn made(&mut self, rt: &HostRuntime, turns: u64) {
        if let (Some(pace), Some(now)) = (&mut self.pace, now(rt)) {
            pace.made(now, u32::try_from(turns).unwrap_or(u32::MAX));
        }
    }

    /// The machine runs, or waits: it can take a tick. The clock begins where it doesn't tick yet.
    pub(crate) fn tick(&mut self, rt: &HostRuntime) -> Ticks {
        let nothing = Ticks {
            is_given: false,
            left_out: 0,
        };
        let (Some(hertz), Some(now)) = (self.hertz, now(rt)) else {
            return nothing;
        };
        match &mut self.clock {
            Some(clock) => Ticks {
                left_out: clock.leave_out(now),
                is_given: clock.tick(now),
            },
            None => {
                self.clock = Some(LineClock::new(hertz, now));
                nothing
            }
        }
    }

    /// The machine has stopped, and the clock with it.
    pub(crate) fn stop(&mut self) {
        self.clock = None;
    }

    /// How long the host sleeps where nothing is pressed: up to the next tick.
    pub(crate) fn nap(&self, rt: &HostRuntime) -> Duration {
        match (&self.clock, now(rt)) {
            (Some(clock), Some(now)) => Duration::from_nanos(clock.nap(now)),
            _ => Duration::from_nanos(PAUSE_NANOS),
        }
    }
}

/// The host's clock, in nanoseconds.
fn now(rt: &HostRuntime) -> Option<u64> {
    let now = rt.monotonic().ok()?;
    u64::try_from(now.as_nanos()).ok()
}
