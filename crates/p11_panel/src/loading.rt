// LOAD.
ghost use Rattle.std.specs.Prelude.{◌≡◌, ℕ, ◌+◌, ◌%◌, ◌<◌, length, true, Ok};
ghost use Rattle.p11_cpu.specs.Operator.{holds_byte_of, put_byte_of};
ghost use Rattle.p11_panel.specs.Commands.{CommandStep};
ghost use Rattle.p11_panel.specs.Tapes.{all_fit, loaded, tape_loaded};

use crate::command::Command;
use crate::panel::Panel;
use p11_lines::{Answer, Fault};
use p11_tape::{TapeFaultKind, read_tape};
use std::alloc::Allocator;

/// Whether two addresses are those of a word's low byte and high byte.
fn is_word(low: u16, high: u16) -> bool
    ensures even { result ≡ true → low % 2 ≡ 0 }
    ensures next { result ≡ true → high ≡ low + 1 }
    ensures all { low % 2 ≡ 0 → high ≡ low + 1 → result ≡ true }
{
    low % 2 == 0 && high == low + 1
}

impl<A: Allocator + Copy> Panel<A> {
    /// Whether memory has a byte at an address.
    fn has_byte(&self, address: u16) -> bool
        ensures { result ≡ holds_byte_of address self.now }
    {
        self.machine.holds_byte(u32::from(address))
    }

    /// Writes a byte to memory.
    fn put_byte(&mut self, address: u16, byte: u8)
        requires { holds_byte_of address self.old ≡ true }
        ensures state { self.new ≡ put_byte_of address byte self.old }
        ensures holds { (a : ℕ) → holds_byte_of a self.new ≡ holds_byte_of a self.old }
    {
        self.machine.put_byte(u32::from(address), byte);
    }

    /// Whether memory has a byte at each of the addresses.
    #[tactic(auto, using(crate::proofs::LoadLemmas::fits_not, crate::proofs::LoadLemmas::fits_more), unfolding(crate::specs::Tapes::all_fit))]
    fn all_fit(&self, placed: &[(u16, u8)]) -> bool
        ensures { result ≡ all_fit placed.now self.now }
    {
        for byte in placed {
            if !self.has_byte(byte.0) {
                return false;
            }
        }
        true
    }

    /// Writes both bytes of a word to memory, the low one first.
    fn put_bytes(&mut self, address: u16, low: u8, high: u8)
        requires even { address % 2 ≡ 0 }
        requires held { holds_byte_of address self.old ≡ true }
        ensures state { self.new ≡ put_byte_of (address + 1) high (put_byte_of address low self.old) }
        ensures holds { (a : ℕ) → holds_byte_of a self.new ≡ holds_byte_of a self.old }
    {
        self.machine.put_bytes(u32::from(address), low, high);
    }

    /// Writes the first of some bytes to memory, and the second with it where they are a word's; and gives the others.
    fn put_first<'a>(&mut self, placed: &'a [(u16, u8)]) -> &'a [(u16, u8)]
        requires some { 0 < length placed.now }
        requires fit { all_fit placed.now self.old ≡ true }
        ensures state { loaded result.now self.new ≡ loaded placed.now self.old }
        ensures fit { all_fit result.now self.new ≡ true }
        ensures fewer { length result.now < length placed.now }
    {
        if let [low, high, others @ ..] = placed {
            if is_word(low.0, high.0) {
                self.put_bytes(low.0, low.1, high.1);
                return others;
            }
        }
        self.put_byte(placed[0].0, placed[0].1);
        &placed[1..]
    }

    /// Writes bytes to memory, one after another.
    #[tactic(auto, unfolding(crate::specs::Tapes::loaded))]
    fn put_all(&mut self, placed: &[(u16, u8)])
        requires { all_fit placed.now self.old ≡ true }
        ensures { self.new ≡ loaded placed.now self.old }
    {
        let mut rest = placed;
        while !rest.is_empty() {
            rest = self.put_first(rest);
        }
    }

    /// Writes the bytes of a tape to memory.
    fn place(&mut self, placed: &[(u16, u8)], start: Option<u16>) -> Answer<A>
        ensures { tape_loaded (Ok (record { placed = placed.now; start = start })) self.old ≡ (self.new, result) }
    {
        if !self.all_fit(placed) {
            return Answer::Refused(Fault::NoAnswer);
        }
        self.put_all(placed);
        Answer::Tape {
            bytes: placed.len() as u64,
            start,
        }
    }

    /// Does LOAD: writes the data of a tape in the absolute binary format to memory, all or none; or says why not.
    pub(crate) fn load(&mut self, alloc: A, tape: &[u8]) -> Answer<A>
        ensures { CommandStep self.old (Command.Load tape.now) result self.new }
    {
        match read_tape(alloc, tape) {
            Ok(tape) => self.place(tape.bytes.as_slice(), tape.start),
            Err(fault) => match fault.kind {
                TapeFaultKind::Memory => Answer::Refused(Fault::NoMemory),
                _ => Answer::Refused(Fault::BadTape),
            },
        }
    }
}
