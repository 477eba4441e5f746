/// How wide an operand is: 16 bits, or the low 8 of them.
#[derive(Clone, Copy)]
pub enum Size {
    Word,
    Byte,
}
