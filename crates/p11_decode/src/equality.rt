//! Whether two instructions are the same.
ghost use Rattle.std.specs.Prelude.{◌≡◌, ◌↔◌, IsTrue};

use crate::groups::{CodesOp, CompareOp, ModifyOp, ReturnOp, SingleOp, StoreOnlyOp, TrapOp};
use crate::op::{Condition, Count, NamedCodes, Op};
use crate::operand::{Operand, Register, Size};

fn same_size(a: Size, b: Size) -> bool
    ensures { IsTrue result ↔ (a ≡ b) }
{
    a == b
}

fn same_register(a: Register, b: Register) -> bool
    ensures { IsTrue result ↔ (a ≡ b) }
{
    a == b
}

fn same_operand(a: Operand, b: Operand) -> bool
    ensures { IsTrue result ↔ (a ≡ b) }
{
    a == b
}

fn same_condition(a: Condition, b: Condition) -> bool
    ensures { IsTrue result ↔ (a ≡ b) }
{
    a == b
}

fn same_count(a: Count, b: Count) -> bool
    ensures { IsTrue result ↔ (a ≡ b) }
{
    a == b
}

fn same_named_codes(a: NamedCodes, b: NamedCodes) -> bool
    ensures { IsTrue result ↔ (a ≡ b) }
{
    a == b
}

fn same_single_op(a: SingleOp, b: SingleOp) -> bool
    ensures { IsTrue result ↔ (a ≡ b) }
{
    a == b
}

fn same_store_only_op(a: StoreOnlyOp, b: StoreOnlyOp) -> bool
    ensures { IsTrue result ↔ (a ≡ b) }
{
    a == b
}

fn same_modify_op(a: ModifyOp, b: ModifyOp) -> bool
    ensures { IsTrue result ↔ (a ≡ b) }
{
    a == b
}

fn same_compare_op(a: CompareOp, b: CompareOp) -> bool
    ensures { IsTrue result ↔ (a ≡ b) }
{
    a == b
}

fn same_codes_op(a: CodesOp, b: CodesOp) -> bool
    ensures { IsTrue result ↔ (a ≡ b) }
{
    a == b
}

fn same_trap_op(a: TrapOp, b: TrapOp) -> bool
    ensures { IsTrue result ↔ (a ≡ b) }
{
    a == b
}

fn same_return_op(a: ReturnOp, b: ReturnOp) -> bool
    ensures { IsTrue result ↔ (a ≡ b) }
{
    a == b
}

/// Whether two instructions are the same, with all their operands.
pub fn same(a: Op, b: Op) -> bool
    ensures { IsTrue result ↔ (a ≡ b) }
{
    match (&a, &b) {
        (Op::Single(a0, a1, a2), Op::Single(b0, b1, b2)) => same_single_op(*a0, *b0)
            && same_size(*a1, *b1)
            && same_operand(*a2, *b2),
        (Op::StoreOnly(a0, a1, a2), Op::StoreOnly(b0, b1, b2)) => same_store_only_op(*a0, *b0)
            && same_size(*a1, *b1)
            && same_operand(*a2, *b2),
        (Op::Tst(a0, a1), Op::Tst(b0, b1)) => same_size(*a0, *b0) && same_operand(*a1, *b1),
        (Op::Modify(a0, a1, a2, a3), Op::Modify(b0, b1, b2, b3)) => same_modify_op(*a0, *b0)
            && same_size(*a1, *b1)
            && same_operand(*a2, *b2)
            && same_operand(*a3, *b3),
        (Op::Compare(a0, a1, a2, a3), Op::Compare(b0, b1, b2, b3)) => same_compare_op(*a0, *b0)
            && same_size(*a1, *b1)
            && same_operand(*a2, *b2)
            && same_operand(*a3, *b3),
        (Op::Mov(a0, a1, a2), Op::Mov(b0, b1, b2)) => same_size(*a0, *b0)
            && same_operand(*a1, *b1)
            && same_operand(*a2, *b2),
        (Op::Mul(a0, a1), Op::Mul(b0, b1)) => same_register(*a0, *b0) && same_operand(*a1, *b1),
        (Op::Div(a0, a1), Op::Div(b0, b1)) => same_register(*a0, *b0) && same_operand(*a1, *b1),
        (Op::Ash(a0, a1), Op::Ash(b0, b1)) => same_register(*a0, *b0) && same_operand(*a1, *b1),
        (Op::Ashc(a0, a1), Op::Ashc(b0, b1)) => same_register(*a0, *b0) && same_operand(*a1, *b1),
        (Op::Branch(a0, a1), Op::Branch(b0, b1)) => same_condition(*a0, *b0) && a1 == b1,
        (Op::Jmp(a0), Op::Jmp(b0)) => same_operand(*a0, *b0),
        (Op::Jsr(a0, a1), Op::Jsr(b0, b1)) => same_register(*a0, *b0) && same_operand(*a1, *b1),
        (Op::Rts(a0), Op::Rts(b0)) => same_register(*a0, *b0),
        (Op::Mark(a0), Op::Mark(b0)) => same_count(*a0, *b0),
        (Op::Sob(a0, a1), Op::Sob(b0, b1)) => same_register(*a0, *b0) && same_count(*a1, *b1),
        (Op::Codes(a0, a1), Op::Codes(b0, b1)) => same_codes_op(*a0, *b0)
            && same_named_codes(*a1, *b1),
        (Op::Trap(a0), Op::Trap(b0)) => same_trap_op(*a0, *b0),
        (Op::Return(a0), Op::Return(b0)) => same_return_op(*a0, *b0),
        (Op::Halt, Op::Halt) => true,
        (Op::Wait, Op::Wait) => true,
        (Op::Reset, Op::Reset) => true,
        (Op::Mfpi(a0), Op::Mfpi(b0)) => same_operand(*a0, *b0),
        (Op::Mtpi(a0), Op::Mtpi(b0)) => same_operand(*a0, *b0),
        (Op::Reserved, Op::Reserved) => true,
        _ => false,
    }
}
