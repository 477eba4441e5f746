//! Why EXAMINE, DEPOSIT, STEP and CONTINUE are refused, found before anything changes.
ghost use Rattle.std.specs.Prelude.{◌≡◌, ◌≤◌, ◌+◌, ◌*◌, ◌<◌, ◌^◌, true, length, IfNone};
ghost use Rattle.p11_panel.specs.Ranges.{answers_at, all_answer, range_fault, touches_io_page};
ghost use Rattle.p11_panel.specs.Ranges.{examine_fault, deposit_fault};
ghost use Rattle.p11_panel.specs.Runs.{step_fault};

use crate::panel::Panel;
use p11_lines::{Fault, MOST_TURNS};
use std::alloc::Allocator;

const MOST_EXAMINED: u32 = 512;

const MOST_DEPOSITED: usize = 64;

const LAST_TURN: u64 = 0x4000_0000_0000_0000;

const LAST_ADDRESS: u64 = 0o777777;

const IO_PAGE: u64 = 0o760000;

/// Whether more than one word is written from an address on, and some of the range lies in the I/O page.
#[tactic(auto, unfolding(crate::specs::Ranges::touches_io_page))]
fn is_past_memory(address: u32, count: u32) -> bool
    ensures { result ≡ touches_io_page address count }
{
    if count <= 1 {
        return false;
    }
    if u64::from(address) > LAST_ADDRESS {
        return false;
    }
    IO_PAGE <= u64::from(address) + 2 * (u64::from(count) - 1)
}

impl<A: Allocator> Panel<A> {
    /// Whether the word of this number, counted from an address on, answers.
    #[tactic(auto, unfolding(crate::specs::Ranges::answers_at))]
    fn answers_at(&self, address: u32, number: u32) -> bool
        ensures { result ≡ answers_at (address + 2 * number) self.now }
    {
        let at = u64::from(address) + 2 * u64::from(number);
        if at > LAST_ADDRESS {
            return false;
        }
        self.machine.answers(at as u32)
    }

    /// Whether so many words from an address on all answer.
    #[tactic(auto, using(crate::proofs::RangeLemmas::all_answer_stops), unfolding(crate::specs::Ranges::all_answer))]
    fn all_answer(&self, address: u32, count: u32) -> bool
        ensures { result ≡ all_answer address count self.now }
    {
        for number in 0..count {
            if !self.answers_at(address, number) {
                return false;
            }
        }
        true
    }

    /// Why words from an address on can't be referred to, if they can't: it is odd, or not all of them answer.
    #[tactic(auto, unfolding(crate::specs::Ranges::range_fault))]
    fn range_refusal(&self, address: u32, count: u32) -> Option<Fault>
        ensures fault { result ≡ range_fault address count self.now }
        ensures answer { IfNone result (all_answer address count self.now ≡ true) }
    {
        if address % 2 == 1 {
            return Some(Fault::OddAddress);
        }
        if !self.all_answer(address, count) {
            return Some(Fault::NoAnswer);
        }
        None
    }

    /// Why EXAMINE is refused, if it is.
    #[tactic(auto, unfolding(crate::specs::Ranges::examine_fault))]
    pub(crate) fn examine_refusal(&self, address: u32, count: u32) -> Option<Fault>
        ensures fault { result ≡ examine_fault address count self.now }
        ensures some { IfNone result (0 < count) }
        ensures answer { IfNone result (all_answer address count self.now ≡ true) }
    {
        if count == 0 || count > MOST_EXAMINED {
            return Some(Fault::TooMany);
        }
        self.range_refusal(address, count)
    }

    /// Why DEPOSIT is refused, if it is.
    #[tactic(auto, unfolding(crate::specs::Ranges::deposit_fault))]
    pub(crate) fn deposit_refusal(&self, address: u32, words: &[u16]) -> Option<Fault>
        ensures fault { result ≡ deposit_fault address (length words.now) self.now }
        ensures few { IfNone result (length words.now ≤ 64) }
        ensures answer { IfNone result (all_answer address (length words.now) self.now ≡ true) }
    {
        if words.len() == 0 || words.len() > MOST_DEPOSITED {
            return Some(Fault::TooMany);
        }
        let count = words.len() as u32;
        if is_past_memory(address, count) {
            return Some(Fault::TooMany);
        }
        self.range_refusal(address, count)
    }

    /// Why STEP and CONTINUE are refused, if they are.
    #[tactic(auto, unfolding(crate::specs::Runs::step_fault))]
    pub(crate) fn step_refusal(&self, turns: u32) -> Option<Fault>
        ensures fault { result ≡ step_fault turns self.now }
        ensures within { IfNone result (self.now.turns + turns ≤ 2 ^ 62) }
    {
        if turns == 0 || turns > MOST_TURNS {
            return Some(Fault::TooMany);
        }
        if u64::from(turns) > LAST_TURN || self.machine.turns() > LAST_TURN - u64::from(turns) {
            return Some(Fault::TooMany);
        }
        None
    }
}
