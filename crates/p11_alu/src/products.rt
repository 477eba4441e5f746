//! MUL and DIV.
ghost use Rattle.std.specs.Prelude.{◌≡◌, ◌≢◌, true, ℤ, pos, neg_ℤ, ◌≤ℤ◌, ◌<ℤ◌, ◌*ℤ◌, int_div, int_rem};
ghost use Rattle.p11_alu.specs.Numbers.{sval, wrapped};
ghost use Rattle.p11_alu.specs.Pairs.{pair_of, pair_value};
ghost use Rattle.p11_alu.specs.Products.{fits_word, mul_of, div_of, answer_with, answer_without};
ghost use Rattle.p11_alu.specs.Calls.Quotients.{IsQuotient};

use crate::codes::Codes;
use crate::pair::{Pair, pair_from, signed_pair};
use crate::quotient::Quotient;
use crate::size::Size;

/// The signed number of a word.
pub(crate) fn signed_word(word: u16) -> i64
    ensures { result ≡ sval Size.Word word }
{
    i64::from(word.cast_signed())
}

/// A word has this signed number.
pub(crate) fn is_word(number: i64) -> bool
    ensures { result ≡ fits_word number }
{
    -0x8000 <= number && number <= 0x7fff
}

/// The low 16 bits of a number.
pub(crate) fn low_word(number: i64) -> u16
    ensures { result ≡ wrapped 65536 number }
{
    (number.cast_unsigned() & 0xffff) as u16
}

/// The low 32 bits of a number.
pub(crate) fn low_pair(number: i64) -> Pair
    ensures { result ≡ pair_of (wrapped 4294967296 number) }
{
    pair_from((number.cast_unsigned() & 0xffff_ffff) as u32)
}

/// The product of two words as signed numbers.
fn product(a: u16, b: u16) -> i64
    ensures { result ≡ sval Size.Word a *ℤ sval Size.Word b }
{
    signed_word(a) * signed_word(b)
}

/// MUL: the signed product of two words, as 32 bits.
#[tactic(auto, unfolding(crate::specs::Products::mul_of))]
#[inline(always)]
pub fn mul(a: u16, b: u16) -> (Pair, Codes)
    ensures { result ≡ mul_of a b }
{
    let product = product(a, b);
    let codes = Codes {
        n: product < 0,
        z: product == 0,
        v: false,
        c: !is_word(product),
    };
    (low_pair(product), codes)
}

/// The quotient and the remainder of two numbers, towards 0.
#[tactic(auto, using(std::proofs::lemmas::Int::quot_is, std::proofs::lemmas::Int::rem_is))]
fn quotient_and_remainder(dividend: i64, divisor: i64) -> (i64, i64)
    requires low { neg_ℤ (pos 2147483648) ≤ℤ dividend }
    requires high { dividend <ℤ pos 2147483648 }
    requires some { divisor ≢ pos 0 }
    ensures quotient { result.0 ≡ int_div dividend divisor }
    ensures remainder { result.1 ≡ int_rem dividend divisor }
{
    (dividend / divisor, dividend % divisor)
}

/// The answer where no quotient is stored.
fn no_quotient(c: bool) -> Quotient
    ensures { result ≡ answer_without c }
{
    let codes = Codes {
        n: false,
        z: false,
        v: true,
        c,
    };
    Quotient {
        fits: false,
        quotient: 0,
        remainder: 0,
        codes,
    }
}

/// The answer with this quotient and remainder.
fn stored(quotient: i64, remainder: i64) -> Quotient
    ensures { result ≡ answer_with quotient remainder }
{
    if !is_word(quotient) {
        return no_quotient(false);
    }
    let codes = Codes {
        n: quotient < 0,
        z: quotient == 0,
        v: false,
        c: false,
    };
    Quotient {
        fits: true,
        quotient: low_word(quotient),
        remainder: low_word(remainder),
        codes,
    }
}

/// The answer for a divisor that isn't 0.
#[inline(always)]
fn divided_by(dividend: Pair, divisor: u16) -> Quotient
    requires { divisor ≢ 0 }
    ensures { result
        ≡ answer_with
        (int_div (pair_value dividend) (sval Size.Word divisor))
        (int_rem (pair_value dividend) (sval Size.Word divisor)) }
{
    let (quotient, remainder) = quotient_and_remainder(signed_pair(dividend), signed_word(divisor));
    stored(quotient, remainder)
}

/// DIV: the signed number of a pair by that of a word, towards 0. The remainder is 0 or has the
/// sign of the dividend.
#[tactic(auto, unfolding(crate::specs::Products::div_of))]
#[inline(always)]
pub fn div(dividend: Pair, divisor: u16) -> Quotient
    ensures value { result ≡ div_of dividend divisor }
    ensures by_zero { divisor ≡ 0 → result ≡ answer_without true }
    ensures relation { (q r : ℤ) → IsQuotient (pair_value dividend) (sval Size.Word divisor) q r →
        result ≡ answer_with q r }
{
    if divisor == 0 {
        return no_quotient(true);
    }
    divided_by(dividend, divisor)
}

/// By a number that isn't 0 there is a quotient with a remainder, and there is one pair of them
/// alone.
pub fn one_quotient()
    ensures there_is_one { (a d : ℤ) → d ≢ pos 0 → IsQuotient a d (int_div a d) (int_rem a d) }
    ensures at_most_one { (a d q r q' r' : ℤ) → IsQuotient a d q r → IsQuotient a d q' r' → (q ≡ q') × (r ≡ r') }
{}
