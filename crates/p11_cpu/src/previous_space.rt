//! MFPI and MTPI, whose operand is in the space of the previous mode.
#![tactic(auto, unfolding(crate::specs::PreviousSpace::read_previous_of, crate::specs::PreviousSpace::write_previous_of, crate::specs::Instructions::execute_of))]

ghost use Rattle.std.specs.Prelude.{◌≡◌};
ghost use Rattle.p11_cpu.specs.Instructions.{execute_of};
ghost use Rattle.p11_cpu.specs.PreviousSpace.{read_previous_of};

use crate::hardware::Hardware;
use crate::operand::Place;
use crate::trap::{Done, Trap};
use crate::turn_number::TurnNumber;
use p11_decode::{Op, Operand, Register, Size};
use std::alloc::Allocator;

impl<A: Allocator> Hardware<A> {
    /// The word at a place in the previous mode.
    fn read_previous(&mut self, turn: TurnNumber, place: Place) -> Result<u16, Trap>
        ensures { read_previous_of place turn self.old ≡ (self.new, result) }
    {
        match place {
            Place::Register(register) => Ok(self.previous_register(register)),
            Place::Memory(address) => {
                let mode = self.previous_mode();
                self.read_in(turn, mode, Size::Word, address)
            }
        }
    }

    /// MFPI.
    #[inline(never)]
    pub fn mfpi(&mut self, turn: TurnNumber, operand: Operand) -> Done
        ensures { execute_of (Op.Mfpi operand) turn self.old ≡ (self.new, result) }
    {
        let source = self.find_place(turn, Size::Word, operand)?;
        let word = self.read_previous(turn, source)?;
        let top = self.step_down(Register::Sp, 2)?;
        self.set_logic_codes_for(Size::Word, word);
        self.write(turn, Size::Word, top, word)?;
        Ok(())
    }

    /// MTPI.
    #[inline(never)]
    pub fn mtpi(&mut self, turn: TurnNumber, operand: Operand) -> Done
        ensures { execute_of (Op.Mtpi operand) turn self.old ≡ (self.new, result) }
    {
        let word = self.pop(turn)?;
        let place = self.find_place(turn, Size::Word, operand)?;
        self.set_logic_codes_for(Size::Word, word);
        match place {
            Place::Register(register) => {
                self.set_previous_register(register, word);
                Ok(())
            }
            Place::Memory(address) => {
                let mode = self.previous_mode();
                self.write_in(turn, mode, Size::Word, address, word)
            }
        }
    }
}
