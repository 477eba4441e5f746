//! References of a program, in words and bytes, by bus address.
ghost use Rattle.std.specs.Prelude.{◌≡◌, ◌==◌, ◌≤◌, ◌<◌, ◌^◌, length};
ghost use Rattle.p11_unibus.specs.Bus.{transmitter_high_byte};
ghost use Rattle.p11_unibus.specs.Calls.References.{read_byte_of, read_word_of, write_byte_of, write_word_of};
ghost use Rattle.p11_unibus.specs.Kept.Written.{noted, noted_byte};

use crate::bytes::{TimeOut, byte_of, even_address, replace_byte};
use crate::unibus::Unibus;
use std::alloc::Allocator;

/// The high byte of the transmitter buffer, where a byte that is written does nothing.
const TRANSMITTER_HIGH_BYTE: u32 = 0o777567;

/// Whether an address is that of the transmitter buffer's high byte.
#[inline(always)]
pub fn is_transmitter_high_byte(address: u32) -> bool
    ensures { result ≡ (address == transmitter_high_byte) }
{
    address == TRANSMITTER_HIGH_BYTE
}

impl<A: Allocator> Unibus<A> {
    /// Reads the word at an address in this turn.
    #[tactic(auto, unfolding(crate::specs::Calls::References::read_word_of))]
    pub fn read_word(&mut self, turn: u64, address: u32) -> Result<u16, TimeOut>
        requires { turn ≤ 2 ^ 62 }
        ensures outcome { read_word_of turn address self.old.visible ≡ (self.new.visible, result) }
        ensures memory { self.new.visible.memory ≡ self.old.visible.memory }
        ensures written { self.new.written ≡ self.old.written }
        ensures prepared { self.new.prepared ≡ self.old.prepared }
    {
        match self.read(turn, address) {
            Some(word) => Ok(word),
            None => Err(TimeOut),
        }
    }

    /// Writes a word at an address in this turn.
    #[tactic(auto, unfolding(crate::specs::Calls::References::write_word_of))]
    pub fn write_word(&mut self, turn: u64, address: u32, word: u16) -> Result<(), TimeOut>
        requires turn { turn ≤ 2 ^ 62 }
        requires room { length self.old.written < 272 }
        ensures outcome { write_word_of turn address word self.old.visible ≡ (self.new.visible, result) }
        ensures written { self.new.written ≡ noted address self.old }
        ensures prepared { self.new.prepared ≡ self.old.prepared }
    {
        if self.write(turn, address, word) {
            Ok(())
        } else {
            Err(TimeOut)
        }
    }

    /// Reads the byte at an address in this turn: half of the word that is read.
    #[tactic(auto, unfolding(crate::specs::Calls::References::read_byte_of))]
    pub fn read_byte(&mut self, turn: u64, address: u32) -> Result<u16, TimeOut>
        requires { turn ≤ 2 ^ 62 }
        ensures outcome { read_byte_of turn address self.old.visible ≡ (self.new.visible, result) }
        ensures memory { self.new.visible.memory ≡ self.old.visible.memory }
        ensures written { self.new.written ≡ self.old.written }
        ensures prepared { self.new.prepared ≡ self.old.prepared }
    {
        match self.read_word(turn, even_address(address)) {
            Ok(word) => Ok(byte_of(address, word)),
            Err(error) => Err(error),
        }
    }

    /// Writes a byte, the low one of `byte`, at an address in this turn: the word that shows there, with that byte
    /// replaced. At 777567, the high byte of the transmitter buffer, it is answered and does nothing.
    #[tactic(auto, unfolding(crate::specs::Calls::References::write_byte_of, crate::specs::Bus::see, crate::specs::Kept::Written::noted, crate::specs::Kept::Written::noted_byte))]
    pub fn write_byte(&mut self, turn: u64, address: u32, byte: u16) -> Result<(), TimeOut>
        requires turn { turn ≤ 2 ^ 62 }
        requires room { length self.old.written < 272 }
        ensures outcome { write_byte_of turn address byte self.old.visible ≡ (self.new.visible, result) }
        ensures written { self.new.written ≡ noted_byte address self.old }
        ensures prepared { self.new.prepared ≡ self.old.prepared }
    {
        if is_transmitter_high_byte(address) {
            return Ok(());
        }
        let even = even_address(address);
        match self.see(turn, even) {
            Some(word) => {
                self.write(turn, even, replace_byte(address, byte, word));
                Ok(())
            }
            None => Err(TimeOut),
        }
    }
}
