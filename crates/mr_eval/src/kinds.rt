//! The kinds of binary operators.
ghost use Rattle.std.specs.Prelude.{◌≡◌};
ghost use Rattle.mr_eval.specs.Arith.{HasOverflowing};
ghost use Rattle.mr_eval.specs.Operators.{exact, kind_of};

use crate::{ArithOp, CmpOp, ShiftOp};
use mr_ast::BinaryOp;

/// An operator that tells whether its result wrapped.
#[derive(Clone, Copy)]
pub enum OverflowOp {
    Add,
    Sub,
    Mul,
}

/// The operator without that.
pub fn exact(op: OverflowOp) -> ArithOp
    ensures is { result ≡ exact op }
    ensures told { HasOverflowing result }
{
    match op {
        OverflowOp::Add => ArithOp::Add,
        OverflowOp::Sub => ArithOp::Sub,
        OverflowOp::Mul => ArithOp::Mul,
    }
}

/// What an operator with two operands does.
#[derive(Clone, Copy)]
pub enum Operator {
    Arith(ArithOp),
    /// The wrapped result, and whether it wrapped.
    Overflowing(OverflowOp),
    Shifting(ShiftOp),
    Comparing(CmpOp),
    /// A pointer moved in bounds.
    Moving,
    /// A pointer moved around the end of the address space.
    Wrapping,
}

pub fn kind_of(op: BinaryOp) -> Operator
    ensures { result ≡ kind_of op }
{
    match op {
        BinaryOp::Add => Operator::Arith(ArithOp::Add),
        BinaryOp::Sub => Operator::Arith(ArithOp::Sub),
        BinaryOp::Mul => Operator::Arith(ArithOp::Mul),
        BinaryOp::Div => Operator::Arith(ArithOp::Div),
        BinaryOp::Rem => Operator::Arith(ArithOp::Rem),
        BinaryOp::And => Operator::Arith(ArithOp::And),
        BinaryOp::Or => Operator::Arith(ArithOp::Or),
        BinaryOp::Xor => Operator::Arith(ArithOp::Xor),
        BinaryOp::AddUnchecked => Operator::Arith(ArithOp::AddUnchecked),
        BinaryOp::SubUnchecked => Operator::Arith(ArithOp::SubUnchecked),
        BinaryOp::MulUnchecked => Operator::Arith(ArithOp::MulUnchecked),
        BinaryOp::AddOverflow => Operator::Overflowing(OverflowOp::Add),
        BinaryOp::SubOverflow => Operator::Overflowing(OverflowOp::Sub),
        BinaryOp::MulOverflow => Operator::Overflowing(OverflowOp::Mul),
        BinaryOp::Shl => Operator::Shifting(ShiftOp::Shl),
        BinaryOp::Shr => Operator::Shifting(ShiftOp::Shr),
        BinaryOp::ShlUnchecked => Operator::Shifting(ShiftOp::ShlUnchecked),
        BinaryOp::ShrUnchecked => Operator::Shifting(ShiftOp::ShrUnchecked),
        BinaryOp::Eq => Operator::Comparing(CmpOp::Eq),
        BinaryOp::Ne => Operator::Comparing(CmpOp::Ne),
        BinaryOp::Lt => Operator::Comparing(CmpOp::Lt),
        BinaryOp::Le => Operator::Comparing(CmpOp::Le),
        BinaryOp::Gt => Operator::Comparing(CmpOp::Gt),
        BinaryOp::Ge => Operator::Comparing(CmpOp::Ge),
        BinaryOp::Offset => Operator::Moving,
        BinaryOp::WrappingOffset => Operator::Wrapping,
    }
}
