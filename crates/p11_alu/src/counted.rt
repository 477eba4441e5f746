//! ASH and ASHC: shifts by a count.
ghost use Rattle.std.specs.Prelude.{◌≡◌, ◌<◌, ◌≤◌, ◌+◌, ◌-◌, ◌^◌, pos, neg_ℤ, ◌≤ℤ◌, ◌<ℤ◌, ◌*ℤ◌};
ghost use Rattle.std.specs.Int.{int_shr};
ghost use Rattle.p11_alu.specs.CountedShifts.{ash_of, ashc_of, count_of};
ghost use Rattle.p11_alu.specs.Calls.ShiftsAtOnce.{is_odd, fits_pair, number_at_once, out_at_once};

use crate::codes::Codes;
use crate::pair::{Pair, signed_pair, unsigned_pair};
use crate::products::{is_word, low_pair, low_word, signed_word};
use crate::results::is_negative;
use crate::size::Size;

/// The lowest bit of a number.
fn has_low_bit(number: i64) -> bool
    ensures { result ≡ is_odd number }
{
    number.cast_unsigned() & 1 != 0
}

/// A pair has this signed number.
fn is_pair(number: i64) -> bool
    ensures { result ≡ fits_pair number }
{
    -0x8000_0000 <= number && number <= 0x7fff_ffff
}

/// A number of 32 bits at most, shifted to the left. What doesn't fit isn't cut off yet.
fn widened(number: i64, places: u32) -> i64
    requires low { neg_ℤ (pos 2147483648) ≤ℤ number }
    requires high { number <ℤ pos 2147483648 }
    requires few { places < 32 }
    ensures { result ≡ number *ℤ pos (2 ^ places) }
{
    number * (1 << places)
}

/// A number of so many bits after a counted shift, before it is cut, and the last bit that went out.
#[inline(always)]
fn shifted(number: i64, bits: u32, count: u16) -> (i64, bool)
    requires low { neg_ℤ (pos 2147483648) ≤ℤ number }
    requires high { number <ℤ pos 2147483648 }
    requires width { bits < 64 }
    ensures number { result.0 ≡ number_at_once (count_of count) number }
    ensures out { result.1 ≡ out_at_once bits (count_of count) number }
{
    let places = u32::from(count & 0o77);
    if places == 0 {
        (number, false)
    } else if places < 32 {
        let wide = widened(number, places);
        (wide, has_low_bit(wide >> bits))
    } else {
        (
            number >> (64 - places),
            has_low_bit(number >> (63 - places)),
        )
    }
}

/// ASH: a word shifted by the signed number in the low six bits of `count`, to the left if it is
/// positive.
#[tactic(auto, unfolding(crate::specs::CountedShifts::ash_of))]
#[inline(always)]
pub fn ash(word: u16, count: u16) -> (u16, Codes)
    ensures { result ≡ ash_of word count }
{
    let (wide, out) = shifted(signed_word(word), 16, count);
    let result = low_word(wide);
    let codes = Codes {
        n: is_negative(Size::Word, result),
        z: result == 0,
        v: !is_word(wide),
        c: out,
    };
    (result, codes)
}

/// ASHC: a pair shifted as one number of 32 bits, by the signed number in the low six bits of
/// `count`, to the left if it is positive.
#[tactic(auto, unfolding(crate::specs::CountedShifts::ashc_of))]
#[inline(always)]
pub fn ashc(pair: Pair, count: u16) -> (Pair, Codes)
    ensures { result ≡ ashc_of pair count }
{
    let (wide, out) = shifted(signed_pair(pair), 32, count);
    let result = low_pair(wide);
    let codes = Codes {
        n: signed_pair(result) < 0,
        z: unsigned_pair(result) == 0,
        v: !is_pair(wide),
        c: out,
    };
    (result, codes)
}
