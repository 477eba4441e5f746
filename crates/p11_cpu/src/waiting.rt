//! Turns in which the processor waits and nothing is done.
ghost use Rattle.std.specs.Prelude.{◌≡◌, ◌≤◌, true};
ghost use Rattle.p11_cpu.specs.Calls.WaitingTurns.{IsAtRest, RestsFor, WaitsThrough};

use crate::hardware::Hardware;
use crate::turn_number::TurnNumber;
use p11_unibus::{
    a_turn_in_which_no_device_acts_changes_nothing,
    the_next_due_turn_is_the_first_in_which_a_device_acts,
};
use std::alloc::Allocator;

impl<A: Allocator> Hardware<A> {
    /// Whether the processor waits, and nothing but a device can end that.
    fn is_at_rest(&self) -> bool
        ensures { result ≡ true → IsAtRest self.now }
    {
        self.is_waiting()
            && !self.is_halted()
            && !self.is_in_yellow_zone()
            && self.is_unprepared()
            && self.has_no_request()
    }

    /// How many of so many turns that follow the turn of this number come before the next one in which a device acts.
    #[tactic(auto, using(crate::proofs::WaitingTurns::rests_for_ever))]
    fn turns_before_an_act(&self, turns: TurnNumber, most: u32) -> u32
        ensures rests { RestsFor result turns self.now.bus }
        ensures bound { result ≤ most }
    {
        the_next_due_turn_is_the_first_in_which_a_device_acts();
        a_turn_in_which_no_device_acts_changes_nothing();
        match self.bus.unibus.next_due(turns.number) {
            Some(due) => turns.count_before(due, most),
            None => most,
        }
    }

    /// How many of so many turns that follow the turn of this number the processor waits through, in which nothing is done.
    #[cold]
    #[inline(never)]
    pub fn waits_through(&self, turns: TurnNumber, most: u32) -> u32
        ensures waits { WaitsThrough result turns self.now }
        ensures bound { result ≤ most }
    {
        if !self.is_at_rest() {
            return 0;
        }
        self.turns_before_an_act(turns, most)
    }
}
