//! Words and bytes: sums, differences, and what a size makes of them.
#![tactic(auto, unfolding(crate::specs::Words::minus, crate::specs::Words::complement, crate::specs::Words::sign_extended))]

ghost use Rattle.std.specs.Prelude.{◌≡◌};
ghost use Rattle.p11_alu.specs.Numbers.{val};
ghost use Rattle.p11_cpu.specs.Words.{width_of, minus, complement, sign_extended};

use p11_alu::Size as Width;
use p11_decode::Size;

/// Names the copy for words of a function that is compiled once for each name.
pub(crate) struct Words;

/// Names the copy for bytes.
pub(crate) struct Bytes;

/// Names the copy for the word after the instruction.
pub(crate) struct Immediate;

/// The size as the arithmetic names it.
#[inline(always)]
pub(crate) fn width(size: Size) -> Width
    ensures { result ≡ width_of size }
{
    match size {
        Size::Word => Width::Word,
        Size::Byte => Width::Byte,
    }
}

/// The difference of two words, without its borrow.
#[inline(always)]
pub(crate) fn minus(word: u16, less: u16) -> u16
    ensures { result ≡ minus word less }
{
    word.wrapping_sub(less)
}

/// What an instruction of this size sees of a register.
#[inline(always)]
pub(crate) fn cut(size: Size, word: u16) -> u16
    ensures { result ≡ val (width_of size) word }
{
    match size {
        Size::Word => word,
        Size::Byte => word % 256,
    }
}

/// A word or a byte with every bit turned.
#[inline(always)]
pub(crate) fn complement(size: Size, number: u16) -> u16
    ensures { result ≡ complement size number }
{
    match size {
        Size::Word => !number,
        Size::Byte => 255 - number % 256,
    }
}

/// The word of the same signed value: a byte with its sign in bits 15 to 8. That is 128 less than the byte with its
/// highest bit turned, which the compiler makes one instruction of.
#[inline(always)]
pub(crate) fn extended(size: Size, value: u16) -> u16
    ensures { result ≡ sign_extended size value }
{
    match size {
        Size::Word => value,
        Size::Byte => { u16::from(((value % 256) as u8).wrapping_add(128)).wrapping_sub(128) }
    }
}
