/// Whether an instruction works on words of 16 bits or on bytes of 8.
#[derive(Clone, Copy)]
pub enum Size {
    Word,
    Byte,
}

/// One of the eight registers that an instruction word can name. R6 is the stack pointer, and R7 the program counter.
#[derive(Clone, Copy, PartialEq, Eq)]
pub enum Register {
    R0,
    R1,
    R2,
    R3,
    R4,
    R5,
    Sp,
    Pc,
}

/// An addressing mode, 0 to 7 in this order: how an operand is found from its register.
#[derive(Clone, Copy, PartialEq, Eq)]
pub enum Mode {
    Register,
    RegisterDeferred,
    AutoIncrement,
    AutoIncrementDeferred,
    AutoDecrement,
    AutoDecrementDeferred,
    Index,
    IndexDeferred,
}

/// The addressing mode and the register of an operand, six bits of an instruction word.
#[derive(Clone, Copy, PartialEq, Eq)]
pub struct Operand {
    pub mode: Mode,
    pub register: Register,
}
