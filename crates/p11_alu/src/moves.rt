//! Shifts and rotations by one place, and SWAB.
ghost use Rattle.std.specs.Prelude.{◌≡◌, ◌+◌, ◌*◌, ◌/◌, ◌%◌, if◌then◌else◌};
ghost use Rattle.p11_alu.specs.Calls.Fits.{Fits};
ghost use Rattle.p11_alu.specs.Numbers.{modulus, sign_weight, val};
ghost use Rattle.p11_words.specs.Bits.{flag};
ghost use Rattle.p11_alu.specs.Shifts.{moved_result, rotate_of, shift_of, swab_of};

use crate::codes::Codes;
use crate::direction::Direction;
use crate::results::{carry, cut, is_negative, logic};
use crate::size::Size;

/// One place to the left, with a new lowest bit.
#[inline(always)]
fn moved_left(size: Size, number: u16, bit: bool) -> u16
    ensures value { result ≡ (2 * val size number + flag bit 1) % modulus size }
    ensures fits { Fits size result }
{
    cut(size, number << 1 | carry(bit))
}

/// One place to the right, with a new sign bit.
#[inline(always)]
fn moved_right(size: Size, number: u16, sign: bool) -> u16
    ensures value { result ≡ val size number / 2 + (if sign then sign_weight size else 0) }
    ensures fits { Fits size result }
{
    let top = match size {
        Size::Word => carry(sign) << 15,
        Size::Byte => carry(sign) << 7,
    };
    top | cut(size, number) >> 1
}

/// A number that was moved by one place, with the codes from the bit that went out.
#[inline(always)]
fn with_codes(size: Size, number: u16, out: bool) -> (u16, Codes)
    ensures { result ≡ moved_result size number out }
{
    let n = is_negative(size, number);
    let codes = Codes {
        n,
        z: number == 0,
        v: n != out,
        c: out,
    };
    (number, codes)
}

/// ROL and ROR: a rotate by one place through C. Of a byte the low byte of `number` is looked at
/// alone.
#[tactic(auto, unfolding(crate::specs::Shifts::rotate_of))]
#[inline(always)]
pub fn rotate(size: Size, direction: Direction, number: u16, c: bool) -> (u16, Codes)
    ensures value { result ≡ rotate_of size direction number c }
    ensures fits { Fits size result.0 }
{
    match direction {
        Direction::Left => with_codes(size, moved_left(size, number, c), is_negative(size, number)),
        Direction::Right => with_codes(size, moved_right(size, number, c), number & 1 != 0),
    }
}

/// ASL and ASR: a shift by one place, which to the right keeps the sign. Of a byte the low byte
/// of `number` is looked at alone.
#[tactic(auto, unfolding(crate::specs::Shifts::shift_of))]
#[inline(always)]
pub fn shift(size: Size, direction: Direction, number: u16) -> (u16, Codes)
    ensures value { result ≡ shift_of size direction number }
    ensures fits { Fits size result.0 }
{
    let sign = is_negative(size, number);
    match direction {
        Direction::Left => with_codes(size, moved_left(size, number, false), sign),
        Direction::Right => with_codes(size, moved_right(size, number, sign), number & 1 != 0),
    }
}

/// SWAB: the bytes of a word exchanged, with the codes of the new low byte.
#[tactic(auto, unfolding(crate::specs::Shifts::swab_of))]
#[inline(always)]
pub fn swab(word: u16) -> (u16, Codes)
    ensures { result ≡ swab_of word }
{
    let swapped = word << 8 | word >> 8;
    (swapped, logic(Size::Byte, swapped, false))
}
