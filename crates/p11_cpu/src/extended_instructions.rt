//! MUL, DIV, ASH and ASHC.
#![tactic(auto, unfolding(crate::specs::Registers::pair_of_registers, crate::specs::Registers::set_pair_of, crate::specs::ExtendedInstructions::quotient_stored, crate::specs::Instructions::execute_of, p11_alu::specs::CountedShifts::ash_of))]

ghost use Rattle.std.specs.Prelude.{◌≡◌};
ghost use Rattle.p11_cpu.specs.Instructions.{execute_of};
ghost use Rattle.p11_cpu.specs.Registers.{odd_of, pair_of_registers, set_pair_of};

use crate::hardware::Hardware;
use crate::trap::Done;
use crate::turn_number::TurnNumber;
use p11_alu::{Pair, ash, ashc, div, mul};
use p11_decode::{Op, Operand, Register, Size};
use std::alloc::Allocator;

/// The register of a pair's low half: the next one of an even register, an odd register itself.
fn low_half(register: Register) -> Register
    ensures { result ≡ odd_of register }
{
    match register {
        Register::R0 | Register::R1 => Register::R1,
        Register::R2 | Register::R3 => Register::R3,
        Register::R4 | Register::R5 => Register::R5,
        Register::Sp | Register::Pc => Register::Pc,
    }
}

impl<A: Allocator> Hardware<A> {
    /// A register and the next one, or an odd register twice.
    #[inline(always)]
    fn pair(&self, register: Register) -> Pair
        ensures { result ≡ pair_of_registers register self.now }
    {
        Pair {
            high: self.register(register),
            low: self.register(low_half(register)),
        }
    }

    /// Sets a register and the next one, or an odd register to the low half.
    fn set_pair(&mut self, register: Register, pair: Pair)
        ensures { self.new ≡ set_pair_of register pair self.old }
    {
        self.set_register(register, pair.high);
        self.set_register(low_half(register), pair.low);
    }

    /// MUL.
    #[inline(always)]
    pub fn mul(&mut self, turn: TurnNumber, register: Register, operand: Operand) -> Done
        ensures { execute_of (Op.Mul register operand) turn self.old ≡ (self.new, result) }
    {
        let factor = self.value(turn, Size::Word, operand)?;
        let (product, codes) = mul(self.register(register), factor);
        self.set_codes(codes);
        self.set_pair(register, product);
        Ok(())
    }

    /// DIV. A quotient that fits is stored with its remainder.
    #[inline(always)]
    pub fn div(&mut self, turn: TurnNumber, register: Register, operand: Operand) -> Done
        ensures { execute_of (Op.Div register operand) turn self.old ≡ (self.new, result) }
    {
        let divisor = self.value(turn, Size::Word, operand)?;
        let quotient = div(self.pair(register), divisor);
        self.set_codes(quotient.codes);
        if quotient.fits {
            let pair = Pair {
                high: quotient.quotient,
                low: quotient.remainder,
            };
            self.set_pair(register, pair);
        }
        Ok(())
    }

    /// ASH.
    #[inline(always)]
    pub fn ash(&mut self, turn: TurnNumber, register: Register, operand: Operand) -> Done
        ensures { execute_of (Op.Ash register operand) turn self.old ≡ (self.new, result) }
    {
        let count = self.value(turn, Size::Word, operand)?;
        let shifted = self.set_codes_for(Size::Word, ash(self.register(register), count));
        self.set_register(register, shifted);
        Ok(())
    }

    /// ASHC.
    #[tactic(auto, unfolding(crate::specs::Instructions::execute_of, p11_alu::specs::CountedShifts::ashc_of), using(crate::proofs::SignWords::pair_again))]
    #[inline(always)]
    pub fn ashc(&mut self, turn: TurnNumber, register: Register, operand: Operand) -> Done
        ensures { execute_of (Op.Ashc register operand) turn self.old ≡ (self.new, result) }
    {
        let count = self.value(turn, Size::Word, operand)?;
        let (shifted, codes) = ashc(self.pair(register), count);
        self.set_codes_of_pair(shifted, codes);
        self.set_pair(register, shifted);
        Ok(())
    }
}
