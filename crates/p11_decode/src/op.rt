//! An instruction and its operands.
ghost use Rattle.std.specs.Prelude.{◌≡◌, ℕ, ◌<◌};

use crate::groups::{CodesOp, CompareOp, ModifyOp, ReturnOp, SingleOp, StoreOnlyOp, TrapOp};
use crate::operand::{Operand, Register, Size};
use std::marker::Model;

/// When a branch is taken, by the condition codes.
#[derive(Clone, Copy)]
pub enum Condition {
    /// BR
    Always,
    /// BNE
    NotEqual,
    /// BEQ
    Equal,
    /// BGE
    GreaterOrEqual,
    /// BLT
    Less,
    /// BGT
    Greater,
    /// BLE
    LessOrEqual,
    /// BPL
    Plus,
    /// BMI
    Minus,
    /// BHI
    Higher,
    /// BLOS
    LowerOrSame,
    /// BVC
    OverflowClear,
    /// BVS
    OverflowSet,
    /// BCC, which is also BHIS
    CarryClear,
    /// BCS, which is also BLO
    CarrySet,
}

/// Which of the condition codes an instruction names.
#[derive(Clone, Copy, PartialEq, Eq)]
pub struct NamedCodes {
    pub n: bool,
    pub z: bool,
    pub v: bool,
    pub c: bool,
}

/// A count of words, 0 to 63 (decimal), which SOB and MARK hold in six bits. A contract sees it as that number.
#[derive(Clone, Copy, PartialEq, Eq)]
pub struct Count {
    words: u8,
}

impl Model for Count {
    ghost Value = { ℕ };

    ghost view = { λ c. c.words };

    ghost invariant = { λ c. c.words < 64 };

    ghost inverse = { λ n. record { words = n } };
}

impl Count {
    /// The count of that many words, the operand of MARK.
    pub fn new(words: u8) -> Self
        requires { words < 64 }
        ensures { result ≡ words }
    {
        Count { words }
    }

    /// How many words it counts, the operand of MARK.
    pub fn words(self) -> u8
        ensures value { result ≡ self }
        ensures range { result < 64 }
    {
        self.words
    }
}

/// An instruction with its operands, of which the source comes first. Instructions that differ only in what they work
/// out are a group of one variant. The others have the names of the assembler's mnemonics. A branch holds its offset in
/// words as the eight bits of a two's complement number.
#[derive(Clone, Copy)]
pub enum Op {
    /// Reads an operand, works out a value from it, and writes the value back.
    Single(SingleOp, Size, Operand),
    /// Writes a value to an operand that isn't read.
    StoreOnly(StoreOnlyOp, Size, Operand),
    Tst(Size, Operand),
    /// Works out a value from source and destination, and writes it to the destination. The source of XOR is its
    /// register, in mode 0.
    Modify(ModifyOp, Size, Operand, Operand),
    /// Sets the condition codes by source and destination.
    Compare(CompareOp, Size, Operand, Operand),
    Mov(Size, Operand, Operand),
    Mul(Register, Operand),
    Div(Register, Operand),
    Ash(Register, Operand),
    Ashc(Register, Operand),
    /// BR and the conditional branches.
    Branch(Condition, u8),
    Jmp(Operand),
    Jsr(Register, Operand),
    Rts(Register),
    Mark(Count),
    Sob(Register, Count),
    /// Clears or sets condition codes.
    Codes(CodesOp, NamedCodes),
    Trap(TrapOp),
    /// A return from a trap or an interrupt.
    Return(ReturnOp),
    Halt,
    Wait,
    Reset,
    Mfpi(Operand),
    Mtpi(Operand),
    /// A word that is no instruction.
    Reserved,
}
