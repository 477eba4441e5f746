//! The instructions of each group by their mnemonics: those of one group take the same steps and differ in what they
//! work out.

/// Instructions that read an operand, work out a value from it and the condition codes, and write it back.
#[derive(Clone, Copy)]
pub enum SingleOp {
    Com,
    Inc,
    Dec,
    Neg,
    Adc,
    Sbc,
    Ror,
    Rol,
    Asr,
    Asl,
    /// Has no byte form.
    Swab,
}

/// Instructions that write a value to an operand without a read of it.
#[derive(Clone, Copy)]
pub enum StoreOnlyOp {
    Clr,
    /// Has no byte form.
    Sxt,
}

/// Instructions that work out a value from a source and a destination, and write it to the destination.
#[derive(Clone, Copy)]
pub enum ModifyOp {
    Bic,
    Bis,
    /// Has no byte form.
    Add,
    /// Has no byte form.
    Sub,
    /// Has no byte form.
    Xor,
}

/// Instructions that set the condition codes by a source and a destination, and write neither.
#[derive(Clone, Copy)]
pub enum CompareOp {
    Cmp,
    Bit,
}

/// What a condition code instruction does to the codes that it names.
#[derive(Clone, Copy)]
pub enum CodesOp {
    /// CLN, CLZ, CLV, CLC, CCC and all that clear several codes at once; NOP names none.
    Clear,
    /// SEN, SEZ, SEV, SEC, SCC and all that set several codes at once.
    Set,
}

/// Instructions that trap, each through a vector of its own.
#[derive(Clone, Copy)]
pub enum TrapOp {
    Bpt,
    Iot,
    Emt,
    Trap,
}

/// The returns from a trap or an interrupt, RTI and RTT.
#[derive(Clone, Copy)]
pub enum ReturnOp {
    Rti,
    Rtt,
}
