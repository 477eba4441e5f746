//! Sums, differences and bitwise results, with their condition codes.
ghost use Rattle.std.specs.Prelude.{◌≡◌, ◌<◌, ℕ, Bool, ◌+ℤ◌, ◌-ℤ◌, int_lt, not, pos};
ghost use Rattle.std.specs.Ordering.{int_eq};
ghost use Rattle.p11_alu.specs.Calls.Fits.{Fits};
ghost use Rattle.p11_alu.specs.Calls.Rules.{neg_by_rule, adc_by_rule, sbc_by_rule};
ghost use Rattle.p11_alu.specs.Numbers.{modulus, val, sval, wrapped};
ghost use Rattle.p11_alu.specs.Results.{difference_of, logic_codes, sum_of, with_carry};
ghost use Rattle.p11_words.specs.Bits.{flag};

use crate::codes::Codes;
use crate::size::Size;

/// The bits of a size.
#[inline(always)]
pub(crate) fn cut(size: Size, number: u16) -> u16
    ensures value { result ≡ val size number }
    ensures fits { Fits size result }
{
    match size {
        Size::Word => number,
        Size::Byte => number & 0xff,
    }
}

/// The sign bit of a number of a size.
#[inline(always)]
pub(crate) fn is_negative(size: Size, number: u16) -> bool
    ensures { result ≡ int_lt (sval size number) (pos 0) }
{
    match size {
        Size::Word => number & 0x8000 != 0,
        Size::Byte => number & 0x80 != 0,
    }
}

/// The sum without its carry.
#[inline(always)]
fn wrapped_sum(size: Size, a: u16, b: u16) -> u16
    ensures value { result ≡ wrapped (modulus size) (pos (val size a) +ℤ pos (val size b)) }
    ensures fits { Fits size result }
{
    cut(size, a.wrapping_add(b))
}

/// The difference without its borrow.
#[inline(always)]
fn wrapped_difference(size: Size, a: u16, b: u16) -> u16
    ensures value { result ≡ wrapped (modulus size) (pos (val size a) -ℤ pos (val size b)) }
    ensures fits { Fits size result }
{
    cut(size, a.wrapping_sub(b))
}

/// A sum doesn't fit: two equal signs gave the other one.
#[inline(always)]
fn sum_overflows(size: Size, a: u16, b: u16, sum: u16) -> bool
    requires { sum ≡ wrapped (modulus size) (pos (val size a) +ℤ pos (val size b)) }
    ensures { result ≡ not (int_eq (sval size a +ℤ sval size b) (sval size sum)) }
{
    let sign = is_negative(size, a);
    sign == is_negative(size, b) && sign != is_negative(size, sum)
}

/// A difference doesn't fit: two signs differed, and the first was lost.
#[inline(always)]
fn difference_overflows(size: Size, a: u16, b: u16, difference: u16) -> bool
    requires { difference ≡ wrapped (modulus size) (pos (val size a) -ℤ pos (val size b)) }
    ensures { result ≡ not (int_eq (sval size a -ℤ sval size b) (sval size difference)) }
{
    let sign = is_negative(size, a);
    sign != is_negative(size, b) && sign != is_negative(size, difference)
}

/// ADD: the sum of two words. C is the carry out of bit 15.
#[tactic(auto, unfolding(crate::specs::Results::sum_of))]
#[inline(always)]
pub fn add(source: u16, destination: u16) -> (u16, Codes)
    ensures { result ≡ sum_of Size.Word source destination }
{
    let sum = source.wrapping_add(destination);
    let codes = Codes {
        n: is_negative(Size::Word, sum),
        z: sum == 0,
        v: sum_overflows(Size::Word, source, destination, sum),
        c: sum < source,
    };
    (sum, codes)
}

/// SUB: the destination minus the source, both words. C is the borrow.
#[tactic(auto, unfolding(crate::specs::Results::difference_of))]
#[inline(always)]
pub fn sub(source: u16, destination: u16) -> (u16, Codes)
    ensures { result ≡ difference_of Size.Word destination source }
{
    let difference = wrapped_difference(Size::Word, destination, source);
    let codes = Codes {
        n: is_negative(Size::Word, difference),
        z: difference == 0,
        v: difference_overflows(Size::Word, destination, source, difference),
        c: destination < source,
    };
    (difference, codes)
}

/// CMP: the codes of the source minus the destination, where SUB has it the other way. C is the
/// borrow. Of bytes the low byte of each is looked at alone.
#[tactic(auto, unfolding(crate::specs::Results::difference_of))]
#[inline(always)]
pub fn cmp(size: Size, source: u16, destination: u16) -> Codes
    ensures { result ≡ (difference_of size source destination).1 }
{
    let difference = wrapped_difference(size, source, destination);
    Codes {
        n: is_negative(size, difference),
        z: difference == 0,
        v: difference_overflows(size, source, destination, difference),
        c: cut(size, source) < cut(size, destination),
    }
}

/// INC: one more; C stays. Of a byte the low byte of `number` is looked at alone.
#[tactic(auto, unfolding(crate::specs::Results::sum_of))]
#[inline(always)]
pub fn inc(size: Size, number: u16, c: bool) -> (u16, Codes)
    ensures value { result ≡ with_carry c (sum_of size number 1) }
    ensures fits { Fits size result.0 }
{
    let sum = wrapped_sum(size, number, 1);
    let codes = Codes {
        n: is_negative(size, sum),
        z: sum == 0,
        v: sum_overflows(size, number, 1, sum),
        c,
    };
    (sum, codes)
}

/// DEC: one less; C stays. Of a byte the low byte of `number` is looked at alone.
#[tactic(auto, unfolding(crate::specs::Results::difference_of))]
#[inline(always)]
pub fn dec(size: Size, number: u16, c: bool) -> (u16, Codes)
    ensures value { result ≡ with_carry c (difference_of size number 1) }
    ensures fits { Fits size result.0 }
{
    let difference = wrapped_difference(size, number, 1);
    let codes = Codes {
        n: is_negative(size, difference),
        z: difference == 0,
        v: difference_overflows(size, number, 1, difference),
        c,
    };
    (difference, codes)
}

/// NEG: 0 minus the operand. C is set unless the result is 0. Of a byte the low byte of `number` is looked at alone.
#[tactic(auto, unfolding(crate::specs::Results::difference_of), using(crate::proofs::Carries::borrow_from_0))]
#[inline(always)]
pub fn neg(size: Size, number: u16) -> (u16, Codes)
    ensures value { result ≡ difference_of size 0 number }
    ensures fits { Fits size result.0 }
{
    let difference = wrapped_difference(size, 0, number);
    let codes = Codes {
        n: is_negative(size, difference),
        z: difference == 0,
        v: difference_overflows(size, 0, number, difference),
        c: cut(size, number) != 0,
    };
    (difference, codes)
}

/// The number that C stands for in a sum.
#[inline(always)]
pub(crate) fn carry(c: bool) -> u16
    ensures { result ≡ flag c 1 }
{
    u16::from(c)
}

/// ADC: the operand plus C. Of a byte the low byte of `number` is looked at alone.
#[tactic(auto, unfolding(crate::specs::Results::sum_of), using(crate::proofs::Carries::carry_out))]
#[inline(always)]
pub fn adc(size: Size, number: u16, c: bool) -> (u16, Codes)
    ensures value { result ≡ sum_of size number (flag c 1) }
    ensures fits { Fits size result.0 }
{
    let carry = carry(c);
    let sum = wrapped_sum(size, number, carry);
    let codes = Codes {
        n: is_negative(size, sum),
        z: sum == 0,
        v: sum_overflows(size, number, carry, sum),
        c: sum < cut(size, number),
    };
    (sum, codes)
}

/// SBC: the operand minus C. Of a byte the low byte of `number` is looked at alone.
#[tactic(auto, unfolding(crate::specs::Results::difference_of), using(crate::proofs::Carries::borrow_out))]
#[inline(always)]
pub fn sbc(size: Size, number: u16, c: bool) -> (u16, Codes)
    ensures value { result ≡ difference_of size number (flag c 1) }
    ensures fits { Fits size result.0 }
{
    let borrow = carry(c);
    let difference = wrapped_difference(size, number, borrow);
    let codes = Codes {
        n: is_negative(size, difference),
        z: difference == 0,
        v: difference_overflows(size, number, borrow, difference),
        c: cut(size, number) < borrow,
    };
    (difference, codes)
}

/// The codes of a result that clears V, with C as handed in: the result of MOV, BIT, BIC, BIS,
/// XOR, COM, CLR, TST, SXT, MFPI and MTPI. Of a byte the low byte of `value` is looked at alone.
#[tactic(auto, unfolding(crate::specs::Results::logic_codes))]
#[inline(always)]
pub fn logic(size: Size, value: u16, c: bool) -> Codes
    ensures { result ≡ logic_codes size value c }
{
    Codes {
        n: is_negative(size, value),
        z: cut(size, value) == 0,
        v: false,
        c,
    }
}

/// The handbook's rules for the V and C of NEG, ADC and SBC, which look at the operand or the result alone, give what
/// the difference from 0, the sum with C and the difference with C have.
pub fn carry_rules()
    ensures neg { (size : Size) (n : ℕ) → n < 65536 → neg_by_rule size n ≡ difference_of size 0 n }
    ensures adc { (size : Size) (n : ℕ) (c : Bool) → n < 65536 → adc_by_rule size n c ≡ sum_of size n (flag c 1) }
    ensures sbc { (size : Size) (n : ℕ) (c : Bool) → n < 65536 → sbc_by_rule size n c ≡ difference_of size n (flag c 1) }
{}
