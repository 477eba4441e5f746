//! From a word to its instruction.
ghost use Rattle.std.specs.Prelude.{◌≡◌, ◌<◌, ◌%◌, ◌/◌, ◌==◌, if◌then◌else◌};
ghost use Rattle.p11_decode.specs.Table.{destination, first_fit, in_register, mode_at, named_codes, op_of, operand_at, register_at, size, source};
ghost use Rattle.p11_decode.specs.declared.groups.ModifyOp.TheVariants.{Add, Sub};
ghost use Rattle.p11_decode.specs.declared.op.Op.TheVariants.{Compare, Modify};
ghost use Rattle.p11_decode.specs.Calls.Rows.{with_digit, from_single, from_call, from_branch, from_return, from_trap, from_operate, from_codes};

use crate::groups::{CodesOp, CompareOp, ModifyOp, ReturnOp, SingleOp, StoreOnlyOp, TrapOp};
use crate::op::{Condition, Count, NamedCodes, Op};
use crate::operand::{Mode, Operand, Register, Size};

fn register_of(number: u16) -> Register
    requires { number < 8 }
    ensures { result ≡ register_at number }
{
    match number {
        0 => Register::R0,
        1 => Register::R1,
        2 => Register::R2,
        3 => Register::R3,
        4 => Register::R4,
        5 => Register::R5,
        6 => Register::Sp,
        _ => Register::Pc,
    }
}

fn mode_of(number: u16) -> Mode
    requires { number < 8 }
    ensures { result ≡ mode_at number }
{
    match number {
        0 => Mode::Register,
        1 => Mode::RegisterDeferred,
        2 => Mode::AutoIncrement,
        3 => Mode::AutoIncrementDeferred,
        4 => Mode::AutoDecrement,
        5 => Mode::AutoDecrementDeferred,
        6 => Mode::Index,
        _ => Mode::IndexDeferred,
    }
}

// The operand in the low six bits.
fn operand_of(bits: u16) -> Operand
    ensures { result ≡ operand_at bits }
{
    Operand {
        mode: mode_of(bits >> 3 & 7),
        register: register_of(bits & 7),
    }
}

// The operand in bits 11 to 6.
fn source_of(word: u16) -> Operand
    ensures { result ≡ source word }
{
    operand_of(word >> 6)
}

// The operand that is a register itself.
fn in_register(register: Register) -> Operand
    ensures { result ≡ in_register register }
{
    Operand {
        mode: Mode::Register,
        register,
    }
}

// The count in the low six bits.
fn count_of(word: u16) -> Count
    ensures { result ≡ word % 64 }
{
    Count::new((word & 0o77) as u8)
}

// The register in bits 8 to 6.
fn first_register(word: u16) -> Register
    ensures { result ≡ register_at (word / 64 % 8) }
{
    register_of(word >> 6 & 7)
}

fn size_of(word: u16) -> Size
    ensures { result ≡ size word }
{
    match word >> 15 & 1 {
        0 => Size::Word,
        _ => Size::Byte,
    }
}

fn named_codes_of(word: u16) -> NamedCodes
    ensures { result ≡ named_codes word }
{
    NamedCodes {
        n: word >> 3 & 1 == 1,
        z: word >> 2 & 1 == 1,
        v: word >> 1 & 1 == 1,
        c: word & 1 == 1,
    }
}

/// The instruction that a word is, by the instruction table; a word that is none is reserved.
#[inline(always)]
pub fn decode(word: u16) -> Op
    ensures { result ≡ op_of word }
{
    // An arm reads its fields itself, so that none is read in vain.
    match word & 0o070000 {
        0o010000 => Op::Mov(size_of(word), source_of(word), operand_of(word)),
        0o020000 => compare(CompareOp::Cmp, word),
        0o030000 => compare(CompareOp::Bit, word),
        0o040000 => modify(ModifyOp::Bic, size_of(word), word),
        0o050000 => modify(ModifyOp::Bis, size_of(word), word),
        0o060000 => modify(add_or_sub(word), Size::Word, word),
        0o070000 => decode_with_register(word),
        _ => decode_sized_single(word),
    }
}

#[inline(always)]
fn compare(op: CompareOp, word: u16) -> Op
    ensures { result ≡ Compare op (size word) (source word) (destination word) }
{
    Op::Compare(op, size_of(word), source_of(word), operand_of(word))
}

#[inline(always)]
fn modify(op: ModifyOp, size: Size, word: u16) -> Op
    ensures { result ≡ Modify op size (source word) (destination word) }
{
    Op::Modify(op, size, source_of(word), operand_of(word))
}

// Which of ADD and SUB a word is that is one of them.
fn add_or_sub(word: u16) -> ModifyOp
    ensures { result ≡ (if word / 0o100000 % 2 == 0 then Add else Sub) }
{
    match word >> 15 & 1 {
        0 => ModifyOp::Add,
        _ => ModifyOp::Sub,
    }
}

// That of a word whose bits 14 to 12 are 7.
#[inline(always)]
fn decode_with_register(word: u16) -> Op
    ensures { result ≡ first_fit (with_digit 0o070000) word }
{
    let register = first_register(word);
    let operand = operand_of(word);
    match word & 0o177000 {
        0o070000 => Op::Mul(register, operand),
        0o071000 => Op::Div(register, operand),
        0o072000 => Op::Ash(register, operand),
        0o073000 => Op::Ashc(register, operand),
        0o074000 => Op::Modify(ModifyOp::Xor, Size::Word, in_register(register), operand),
        0o077000 => Op::Sob(register, count_of(word)),
        _ => Op::Reserved,
    }
}

// That of a word whose bits 14 to 12 are 0. From here on the formats follow in the table's order.
#[inline(always)]
fn decode_sized_single(word: u16) -> Op
    ensures { result ≡ first_fit (with_digit 0) word }
{
    match word & 0o077700 {
        0o005000 => Op::StoreOnly(StoreOnlyOp::Clr, size_of(word), operand_of(word)),
        0o005100 => Op::Single(SingleOp::Com, size_of(word), operand_of(word)),
        0o005200 => Op::Single(SingleOp::Inc, size_of(word), operand_of(word)),
        0o005300 => Op::Single(SingleOp::Dec, size_of(word), operand_of(word)),
        0o005400 => Op::Single(SingleOp::Neg, size_of(word), operand_of(word)),
        0o005500 => Op::Single(SingleOp::Adc, size_of(word), operand_of(word)),
        0o005600 => Op::Single(SingleOp::Sbc, size_of(word), operand_of(word)),
        0o005700 => Op::Tst(size_of(word), operand_of(word)),
        0o006000 => Op::Single(SingleOp::Ror, size_of(word), operand_of(word)),
        0o006100 => Op::Single(SingleOp::Rol, size_of(word), operand_of(word)),
        0o006200 => Op::Single(SingleOp::Asr, size_of(word), operand_of(word)),
        0o006300 => Op::Single(SingleOp::Asl, size_of(word), operand_of(word)),
        _ => decode_single(word),
    }
}

#[inline(always)]
fn decode_single(word: u16) -> Op
    ensures { result ≡ first_fit from_single word }
{
    match word & 0o177700 {
        0o000100 => Op::Jmp(operand_of(word)),
        0o000300 => Op::Single(SingleOp::Swab, Size::Word, operand_of(word)),
        0o006400 => Op::Mark(count_of(word)),
        0o006500 => Op::Mfpi(operand_of(word)),
        0o006600 => Op::Mtpi(operand_of(word)),
        0o006700 => Op::StoreOnly(StoreOnlyOp::Sxt, Size::Word, operand_of(word)),
        _ => decode_call(word),
    }
}

#[inline(always)]
fn decode_call(word: u16) -> Op
    ensures { result ≡ first_fit from_call word }
{
    match word & 0o177000 {
        0o004000 => Op::Jsr(first_register(word), operand_of(word)),
        _ => decode_branch(word),
    }
}

#[inline(always)]
fn decode_branch(word: u16) -> Op
    ensures { result ≡ first_fit from_branch word }
{
    let offset = (word & 0o377) as u8;
    match word & 0o177400 {
        0o000400 => Op::Branch(Condition::Always, offset),
        0o001000 => Op::Branch(Condition::NotEqual, offset),
        0o001400 => Op::Branch(Condition::Equal, offset),
        0o002000 => Op::Branch(Condition::GreaterOrEqual, offset),
        0o002400 => Op::Branch(Condition::Less, offset),
        0o003000 => Op::Branch(Condition::Greater, offset),
        0o003400 => Op::Branch(Condition::LessOrEqual, offset),
        0o100000 => Op::Branch(Condition::Plus, offset),
        0o100400 => Op::Branch(Condition::Minus, offset),
        0o101000 => Op::Branch(Condition::Higher, offset),
        0o101400 => Op::Branch(Condition::LowerOrSame, offset),
        0o102000 => Op::Branch(Condition::OverflowClear, offset),
        0o102400 => Op::Branch(Condition::OverflowSet, offset),
        0o103000 => Op::Branch(Condition::CarryClear, offset),
        0o103400 => Op::Branch(Condition::CarrySet, offset),
        _ => decode_return(word),
    }
}

#[inline(always)]
fn decode_return(word: u16) -> Op
    ensures { result ≡ first_fit from_return word }
{
    match word & 0o177770 {
        0o000200 => Op::Rts(register_of(word & 7)),
        _ => decode_trap(word),
    }
}

#[inline(always)]
fn decode_trap(word: u16) -> Op
    ensures { result ≡ first_fit from_trap word }
{
    match word & 0o177400 {
        0o104000 => Op::Trap(TrapOp::Emt),
        0o104400 => Op::Trap(TrapOp::Trap),
        _ => decode_operate(word),
    }
}

#[inline(always)]
fn decode_operate(word: u16) -> Op
    ensures { result ≡ first_fit from_operate word }
{
    match word {
        0o000000 => Op::Halt,
        0o000001 => Op::Wait,
        0o000002 => Op::Return(ReturnOp::Rti),
        0o000003 => Op::Trap(TrapOp::Bpt),
        0o000004 => Op::Trap(TrapOp::Iot),
        0o000005 => Op::Reset,
        0o000006 => Op::Return(ReturnOp::Rtt),
        _ => decode_codes(word),
    }
}

#[inline(always)]
fn decode_codes(word: u16) -> Op
    ensures { result ≡ first_fit from_codes word }
{
    match word & 0o177760 {
        0o000240 => Op::Codes(CodesOp::Clear, named_codes_of(word)),
        0o000260 => Op::Codes(CodesOp::Set, named_codes_of(word)),
        _ => Op::Reserved,
    }
}
