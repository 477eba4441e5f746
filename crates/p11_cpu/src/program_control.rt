//! Branches, jumps, subroutines, SOB and MARK.
#![tactic(auto, unfolding(crate::specs::ProgramControl::is_taken, crate::specs::Instructions::execute_of, crate::specs::ProgramControl::branched, crate::specs::ProgramControl::counted_back))]

ghost use Rattle.std.specs.Prelude.{◌≡◌, ℕ, ◌==◌, Ok};
ghost use Rattle.p11_cpu.specs.Instructions.{execute_of};
ghost use Rattle.p11_cpu.specs.Kept.Quiet.{IsQuietTo};
ghost use Rattle.p11_cpu.specs.ProgramControl.{is_taken, branch_address, linked};
ghost use Rattle.p11_cpu.specs.Registers.{codes_of};

use crate::hardware::Hardware;
use crate::trap::Done;
use crate::turn_number::TurnNumber;
use crate::words::minus;
use p11_decode::{Condition, Count, Op, Operand, Register};
use p11_icache::Displacement;
use std::alloc::Allocator;

/// Where a branch goes from the word after it.
#[tactic(auto, using(crate::proofs::HeldLines::branched_by))]
#[inline(always)]
fn branch_target(offset: Displacement, pc: u16) -> u16
    ensures { result ≡ branch_address offset pc }
{
    pc.wrapping_add(offset.bytes())
}

impl<A: Allocator> Hardware<A> {
    /// Whether a branch is taken. Each condition looks at its own codes alone.
    #[inline(always)]
    fn takes(&self, condition: Condition) -> bool
        ensures { result ≡ is_taken condition (codes_of self.now) }
    {
        match condition {
            Condition::Always => true,
            Condition::NotEqual => !self.is_zero(),
            Condition::Equal => self.is_zero(),
            Condition::GreaterOrEqual => self.is_negative() == self.is_overflow(),
            Condition::Less => self.is_negative() != self.is_overflow(),
            Condition::Greater => !self.is_zero() && self.is_negative() == self.is_overflow(),
            Condition::LessOrEqual => self.is_zero() || self.is_negative() != self.is_overflow(),
            Condition::Plus => !self.is_negative(),
            Condition::Minus => self.is_negative(),
            Condition::Higher => !self.is_carry() && !self.is_zero(),
            Condition::LowerOrSame => self.is_carry() || self.is_zero(),
            Condition::OverflowClear => !self.is_overflow(),
            Condition::OverflowSet => self.is_overflow(),
            Condition::CarryClear => !self.is_carry(),
            Condition::CarrySet => self.is_carry(),
        }
    }

    /// BR and the conditional branches.
    #[inline(always)]
    pub fn branch_on(&mut self, condition: Condition, offset: Displacement)
        ensures run { (turn : ℕ) → execute_of (Op.Branch condition offset) turn self.old ≡ (self.new, Ok tt) }
        ensures quiet { (last : ℕ) → IsQuietTo last self.old → IsQuietTo last self.new }
    {
        if self.takes(condition) {
            let target = branch_target(offset, self.register(Register::Pc));
            self.set_register(Register::Pc, target);
        }
    }

    /// JMP.
    #[inline(always)]
    pub fn jmp(&mut self, turn: TurnNumber, operand: Operand) -> Done
        ensures { execute_of (Op.Jmp operand) turn self.old ≡ (self.new, result) }
    {
        let target = self.find_target(turn, operand)?;
        self.set_register(Register::Pc, target);
        Ok(())
    }

    /// What JSR does once it has the subroutine's address, on either path.
    #[inline(always)]
    fn link(&mut self, turn: TurnNumber, register: Register, target: u16) -> Done
        ensures { linked register target turn self.old ≡ (self.new, result) }
    {
        self.push_register(turn, register)?;
        let pc = self.register(Register::Pc);
        self.set_register(register, pc);
        self.set_register(Register::Pc, target);
        Ok(())
    }

    /// JSR. PC as the link register has a path of its own, as in `step_up`.
    #[inline(always)]
    pub fn jsr(&mut self, turn: TurnNumber, register: Register, operand: Operand) -> Done
        ensures { execute_of (Op.Jsr register operand) turn self.old ≡ (self.new, result) }
    {
        let target = self.find_target(turn, operand)?;
        match register {
            Register::Pc => self.link(turn, Register::Pc, target),
            _ => self.link(turn, register, target),
        }
    }

    /// RTS, on either path.
    #[inline(always)]
    fn rts_by(&mut self, turn: TurnNumber, register: Register) -> Done
        ensures { execute_of (Op.Rts register) turn self.old ≡ (self.new, result) }
    {
        let link = self.register(register);
        self.set_register(Register::Pc, link);
        let saved = self.pop(turn)?;
        self.set_register(register, saved);
        Ok(())
    }

    /// RTS. PC as the link register has a path of its own, as in `step_up`.
    #[inline(always)]
    pub fn rts(&mut self, turn: TurnNumber, register: Register) -> Done
        ensures { execute_of (Op.Rts register) turn self.old ≡ (self.new, result) }
    {
        match register {
            Register::Pc => self.rts_by(turn, Register::Pc),
            _ => self.rts_by(turn, register),
        }
    }

    /// MARK.
    #[inline(never)]
    pub fn mark(&mut self, turn: TurnNumber, count: Count) -> Done
        ensures { execute_of (Op.Mark count) turn self.old ≡ (self.new, result) }
    {
        let pc = self.register(Register::Pc);
        self.set_register(Register::Sp, pc.wrapping_add(2 * u16::from(count.words())));
        let frame = self.register(Register::R5);
        self.set_register(Register::Pc, frame);
        let word = self.pop(turn)?;
        self.set_register(Register::R5, word);
        Ok(())
    }

    /// SOB.
    #[inline(always)]
    pub fn sob(&mut self, register: Register, count: Count)
        ensures run { (turn : ℕ) → execute_of (Op.Sob register count) turn self.old ≡ (self.new, Ok tt) }
        ensures quiet { (last : ℕ) → IsQuietTo last self.old → IsQuietTo last self.new }
    {
        self.set_register(register, minus(self.register(register), 1));
        if self.register(register) != 0 {
            let back = 2 * u16::from(count.words());
            self.set_register(Register::Pc, minus(self.register(Register::Pc), back));
        }
    }
}
