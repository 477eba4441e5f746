//! The condition codes.
#![tactic(auto, unfolding(crate::specs::Registers::codes_of, crate::specs::Registers::set_codes_of, p11_alu::specs::Results::logic_codes))]

ghost use Rattle.std.specs.Prelude.{◌≡◌, ◌==◌, int_lt, pos};
ghost use Rattle.p11_alu.specs.Pairs.{number_of, pair_value};
ghost use Rattle.p11_alu.specs.Results.{logic_codes, result_with};
ghost use Rattle.p11_cpu.specs.Registers.{codes_of, set_codes_of};
ghost use Rattle.p11_cpu.specs.SingleOperand.{bitwise};
ghost use Rattle.p11_cpu.specs.Words.{width_of};

use crate::hardware::Hardware;
use crate::signs::Signs;
use crate::words::cut;
use p11_alu::{Codes, Pair};
use p11_decode::Size;
use std::alloc::Allocator;

impl<A: Allocator> Hardware<A> {
    /// The condition codes of the status word.
    #[inline(always)]
    pub fn codes(&self) -> Codes
        ensures { result ≡ codes_of self.now }
    {
        Codes {
            n: self.signs.n(),
            z: self.signs.z(),
            v: self.status.v,
            c: self.status.c,
        }
    }

    /// Sets the condition codes of the status word.
    #[inline(always)]
    pub fn set_codes(&mut self, codes: Codes)
        ensures { self.new ≡ set_codes_of codes self.old }
    {
        self.signs = Signs::of_codes(codes.n, codes.z);
        self.status.v = codes.v;
        self.status.c = codes.c;
    }

    /// Sets N and Z by a result of a size, V and C as they are handed in, and gives what is stored.
    #[inline(always)]
    pub fn set_codes_for(&mut self, size: Size, done: (u16, Codes)) -> u16
        ensures state { self.new
            ≡ set_codes_of (result_with (width_of size) done.0 done.1.v done.1.c).1 self.old }
        ensures value { result ≡ done.0 }
    {
        let (stored, codes) = done;
        self.signs = Signs::of(size, stored, stored);
        self.status.v = codes.v;
        self.status.c = codes.c;
        stored
    }

    /// Sets N and Z by a result of a size and V as it is handed in, where C is as it was, and gives what is stored.
    #[inline(always)]
    pub fn set_nzv_for(&mut self, size: Size, done: (u16, Codes)) -> u16
        ensures state { self.new
            ≡ set_codes_of (result_with (width_of size) done.0 done.1.v (codes_of self.old).c).1 self.old }
        ensures value { result ≡ done.0 }
    {
        let (stored, codes) = done;
        self.signs = Signs::of(size, stored, stored);
        self.status.v = codes.v;
        stored
    }

    /// Sets the codes of a pair of words as one number: N and Z, which these codes have by it, and V and C as they are
    /// handed in.
    #[tactic(auto, unfolding(crate::specs::Registers::set_codes_of), using(crate::proofs::SignWords::negative_pair, crate::proofs::SignWords::zero_pair))]
    #[inline(always)]
    pub fn set_codes_of_pair(&mut self, pair: Pair, codes: Codes)
        requires negative { codes.n ≡ int_lt (pair_value pair) (pos 0) }
        requires zero { codes.z ≡ (number_of pair == 0) }
        ensures { self.new ≡ set_codes_of codes self.old }
    {
        self.signs = Signs::of(Size::Word, pair.high, pair.high | pair.low);
        self.status.v = codes.v;
        self.status.c = codes.c;
    }

    /// Sets the codes of a bitwise result, which leaves C, and gives what it stores.
    #[inline(always)]
    pub fn set_logic_codes_for(&mut self, size: Size, word: u16) -> u16
        ensures state { self.new ≡ set_codes_of (bitwise size word (codes_of self.old)).1 self.old }
        ensures value { result ≡ (bitwise size word (codes_of self.old)).0 }
    {
        self.signs = Signs::of(size, word, cut(size, word));
        self.status.v = false;
        word
    }

    /// Sets the codes of a bitwise result, with C as it is handed in.
    #[inline(always)]
    pub fn set_logic_codes(&mut self, size: Size, word: u16, c: bool)
        ensures { self.new ≡ set_codes_of (logic_codes (width_of size) word c) self.old }
    {
        self.signs = Signs::of(size, word, cut(size, word));
        self.status.v = false;
        self.status.c = c;
    }

    /// Whether N is set.
    #[inline(always)]
    pub fn is_negative(&self) -> bool
        ensures { result ≡ (codes_of self.now).n }
    {
        self.signs.n()
    }

    /// Whether Z is set.
    #[inline(always)]
    pub fn is_zero(&self) -> bool
        ensures { result ≡ (codes_of self.now).z }
    {
        self.signs.z()
    }

    /// Whether V is set.
    #[inline(always)]
    pub fn is_overflow(&self) -> bool
        ensures { result ≡ (codes_of self.now).v }
    {
        self.status.v
    }

    /// Whether C is set.
    #[inline(always)]
    pub fn is_carry(&self) -> bool
        ensures { result ≡ (codes_of self.now).c }
    {
        self.status.c
    }
}
