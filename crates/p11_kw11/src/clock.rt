//! The line clock.
ghost use Rattle.std.specs.Prelude.{◌≡◌, ◌≤◌, ◌<◌, ◌^◌, ◌&&◌, ◌||◌, not};
ghost use Rattle.p11_words.specs.DueTurns.{is_due};
ghost use Rattle.p11_kw11.specs.LineClock.{clock_after_init, clock_after_period, clock_after_service, clock_after_tick, clock_after_turn, clock_after_write, clock_word, new_clock, next_tick};

use p11_words::{bit, flag, is_due};
use std::marker::Model;

/// The place of the monitor bit in the status register.
const MONITOR: u32 = 7;

/// The place of the bit that enables interrupts.
const ENABLE: u32 = 6;

/// A KW11-L line clock. Its one register, the status register, shows the monitor bit in bit 7 and the interrupt enable
/// in bit 6. It interrupts at level 6 through vector 100 (octal). The line ticks when it is told to, and by itself after
/// each period, where one is set.
#[derive(Drop)]
pub struct Kw11 {
    monitor: bool,
    enable: bool,
    request: bool,
    /// How many turns lie between two ticks that the line makes by itself; with 0 it makes none.
    period: u32,
    /// The turn in which the line next ticks by itself.
    due: Option<u64>,
}

impl Model for Kw11 {
    ghost use Rattle.p11_kw11.specs.LineClock.{LineClock};

    ghost Value = { LineClock };

    ghost view = { λ k. record {
      monitor = k.monitor;
      enable = k.enable;
      request = k.request;
      period = k.period;
      due = k.due;
    } };
}

/// The request after a write that leaves the clock with this monitor bit and this enable.
fn requests(requested: bool, was_enabled: bool, monitor: bool, enable: bool) -> bool
    ensures { result ≡ (enable && (requested || (monitor && not was_enabled))) }
{
    enable && (requested || monitor && !was_enabled)
}

/// The turn of the tick that follows by itself on this turn, and none for period 0.
fn next_tick(turn: u64, period: u32) -> Option<u64>
    requires { turn ≤ 2 ^ 62 }
    ensures { result ≡ next_tick turn period }
{
    if period == 0 {
        return None;
    }
    Some(turn + u64::from(period))
}

impl Kw11 {
    /// A new clock: monitor set, interrupts disabled. The line doesn't tick by itself.
    #[tactic(auto, unfolding(crate::specs::LineClock::new_clock))]
    pub fn new() -> Self
        ensures { result ≡ new_clock }
    {
        Kw11 {
            monitor: true,
            enable: false,
            request: false,
            period: 0,
            due: None,
        }
    }

    /// The word of the status register. Reading it changes nothing.
    #[tactic(auto, unfolding(crate::specs::LineClock::clock_word))]
    pub fn read(&self) -> u16
        ensures { result ≡ clock_word self.now }
    {
        flag(self.monitor, 1 << MONITOR) + flag(self.enable, 1 << ENABLE)
    }

    /// Writes the status register: bit 6 is taken, and a 0 in bit 7 clears the monitor bit.
    #[tactic(auto, unfolding(crate::specs::LineClock::clock_after_write))]
    pub fn write(&mut self, word: u16)
        ensures { self.new ≡ clock_after_write word self.old }
    {
        let was_enabled = self.enable;
        self.monitor &= bit(word, MONITOR);
        self.enable = bit(word, ENABLE);
        self.request = requests(self.request, was_enabled, self.monitor, self.enable);
    }

    /// The line ticks: the monitor bit is set, and an interrupt is requested if enabled. The due turn stays.
    #[tactic(auto, unfolding(crate::specs::LineClock::clock_after_tick))]
    pub fn tick(&mut self)
        ensures { self.new ≡ clock_after_tick self.old }
    {
        self.monitor = true;
        self.request |= self.enable;
    }

    /// Whether an interrupt is requested that isn't served yet.
    pub fn request(&self) -> bool
        ensures { result ≡ self.now.request }
    {
        self.request
    }

    /// The processor serves the interrupt, which drops the request.
    #[tactic(auto, unfolding(crate::specs::LineClock::clock_after_service))]
    pub fn ack(&mut self)
        ensures { self.new ≡ clock_after_service self.old }
    {
        self.request = false;
    }

    /// INIT on the bus: monitor set, interrupts disabled. The period and the due turn stay.
    #[tactic(auto, unfolding(crate::specs::LineClock::clock_after_init, crate::specs::LineClock::clock_after_service))]
    pub fn init(&mut self)
        ensures { self.new ≡ clock_after_init self.old }
    {
        self.monitor = true;
        self.enable = false;
        self.ack();
    }

    /// The operator sets the period when so many turns are done: the line next ticks by itself a period later, and with
    /// period 0 no more.
    #[tactic(auto, unfolding(crate::specs::LineClock::clock_after_period))]
    pub fn set_period(&mut self, turn: u64, period: u32)
        requires { turn ≤ 2 ^ 62 }
        ensures { self.new ≡ clock_after_period turn period self.old }
    {
        self.period = period;
        self.due = next_tick(turn, period);
    }

    /// What the clock does in this turn: the line ticks where it is due.
    #[tactic(auto, unfolding(crate::specs::LineClock::clock_after_turn, crate::specs::LineClock::clock_after_tick))]
    pub fn act(&mut self, turn: u64)
        requires { turn ≤ 2 ^ 62 }
        ensures { self.new ≡ clock_after_turn turn self.old }
    {
        if is_due(turn, self.due) {
            self.tick();
            self.due = next_tick(turn, self.period);
        }
    }

    /// Whether the line ticks by itself in this turn, and the tick requests an interrupt.
    #[inline(always)]
    pub fn interrupts_in(&self, turn: u64) -> bool
        ensures { result ≡ (self.now.enable && is_due turn self.now.due) }
    {
        self.enable && is_due(turn, self.due)
    }

    /// How many turns lie between two ticks that the line makes by itself; with 0 it makes none.
    pub fn period(&self) -> u32
        ensures { result ≡ self.now.period }
    {
        self.period
    }

    /// The turn in which the line next ticks by itself.
    pub fn due(&self) -> Option<u64>
        ensures { result ≡ self.now.due }
    {
        self.due
    }
}
