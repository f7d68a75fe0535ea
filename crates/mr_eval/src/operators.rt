//! Operators on numbers and pointers.
ghost use Rattle.std.specs.Prelude.{◌≡◌, ◌<◌, ◌^◌, None};
ghost use Rattle.mr_ast.specs.Integers.{bits_of};
ghost use Rattle.mr_value.specs.declared.val.Val.{out-Val};
ghost use Rattle.mr_eval.specs.Answers.{Says, same};
ghost use Rattle.mr_eval.specs.declared.kinds.Operator.TheVariants.{Arith, Comparing, Overflowing, Shifting, Wrapping};
ghost use Rattle.mr_eval.specs.Operators.{arith_like, cast_layer, like, operated, shift_like, unary_bits, unary_in, with_flag};
ghost use Rattle.mr_base.specs.Script.{Done};

use crate::halt::Halt;
use crate::kinds::{OverflowOp, exact};
use crate::moving::behind;
use crate::operands::{left_in, pointer_in, right_in};
use crate::{ArithOp, CmpOp, ShiftOp};
use mr_ast::{IntType, UnaryOp};
use mr_value::{Items, Val};
use std::alloc::Global;

// Bits as a value of the operand's kind.
fn like(v: &Val, bits: u128) -> Result<Val, Halt>
    ensures { Says same result (like (out-Val v.now) bits) }
{
    match v {
        Val::Int(_) => Ok(Val::Int(bits)),
        Val::Bool(_) => Ok(Val::Bool(bits != 0)),
        Val::Ptr(_) | Val::Tuple(_) | Val::Union(_) | Val::Variant(_, _) => Err(Halt::IllFormed),
    }
}

// An arithmetic operator on the bits of an integer.
fn arith_bits(op: ArithOp, int: IntType, x: u128, y: u128, a: &Val) -> Result<Val, Halt>
    requires left { x < 2 ^ bits_of int }
    requires right { y < 2 ^ bits_of int }
    ensures { Says same result (arith_like op int x y (out-Val a.now)) }
{
    match crate::arith(op, int, x, y) {
        Ok(bits) => like(a, bits),
        Err(reason) => Err(Halt::Undefined(reason)),
    }
}

/// An arithmetic operator.
pub fn arith(op: ArithOp, left: Option<IntType>, a: &Val, b: &Val) -> Result<Val, Halt>
    ensures { Says same result (operated (Arith op) left None (out-Val a.now) (out-Val b.now)) }
{
    match left_in(a, left) {
        Some((int, x)) => match right_in(int, b) {
            Some(y) => arith_bits(op, int, x, y, a),
            None => Err(Halt::IllFormed),
        },
        None => Err(Halt::IllFormed),
    }
}

// A shift of the bits of an integer.
fn shift_bits(op: ShiftOp, int: IntType, x: u128, by: IntType, y: u128) -> Result<Val, Halt>
    requires left { x < 2 ^ bits_of int }
    requires right { y < 2 ^ bits_of by }
    ensures { Says same result (shift_like op int x by y) }
{
    match crate::shift(op, int, x, by, y) {
        Ok(bits) => Ok(Val::Int(bits)),
        Err(reason) => Err(Halt::Undefined(reason)),
    }
}

/// A shift.
pub fn shift(
    op: ShiftOp,
    left: Option<IntType>,
    right: Option<IntType>,
    a: &Val,
    b: &Val,
) -> Result<Val, Halt>
    ensures { Says same result (operated (Shifting op) left right (out-Val a.now) (out-Val b.now)) }
{
    match (left_in(a, left), left_in(b, right)) {
        (Some((int, x)), Some((by, y))) => shift_bits(op, int, x, by, y),
        _ => Err(Halt::IllFormed),
    }
}

/// A comparison.
pub fn compare(op: CmpOp, left: Option<IntType>, a: &Val, b: &Val) -> Result<Val, Halt>
    ensures { Says same result (operated (Comparing op) left None (out-Val a.now) (out-Val b.now)) }
{
    match left_in(a, left) {
        Some((int, x)) => match right_in(int, b) {
            Some(y) => Ok(Val::Bool(crate::compare(op, int, x, y))),
            None => Err(Halt::IllFormed),
        },
        None => Err(Halt::IllFormed),
    }
}

// Both as a tuple.
fn with_flag(alloc: Global, told: (u128, bool)) -> Result<Val, Halt>
    ensures { Says same result (Done (with_flag told)) }
{
    let mut parts = Items::new(alloc);
    parts.push(Val::Int(told.0))?;
    parts.push(Val::Bool(told.1))?;
    Ok(Val::Tuple(parts))
}

/// An operator that tells of overflow.
pub fn overflowing(
    alloc: Global,
    op: OverflowOp,
    left: Option<IntType>,
    a: &Val,
    b: &Val,
) -> Result<Val, Halt>
    ensures { Says same result (operated (Overflowing op) left None (out-Val a.now) (out-Val b.now)) }
{
    match left_in(a, left) {
        Some((int, x)) => match right_in(int, b) {
            Some(y) => with_flag(alloc, crate::overflowing(exact(op), int, x, y)),
            None => Err(Halt::IllFormed),
        },
        None => Err(Halt::IllFormed),
    }
}

/// A pointer moved around the end of the address space.
pub fn moved_around(a: &Val, b: &Val) -> Result<Val, Halt>
    ensures { Says same result (operated Wrapping None None (out-Val a.now) (out-Val b.now)) }
{
    match (pointer_in(a), right_in(IntType::I64, b)) {
        (Some(p), Some(n)) => Ok(Val::Ptr(behind(p, n as u64))),
        _ => Err(Halt::IllFormed),
    }
}

/// An operator with one operand.
pub fn unary(op: UnaryOp, told: Option<IntType>, v: &Val) -> Result<Val, Halt>
    ensures { Says same result (unary_in op told (out-Val v.now)) }
{
    match v {
        Val::Int(_) => match left_in(v, told) {
            Some((int, bits)) => Ok(Val::Int(unary_bits(op, int, bits))),
            None => Err(Halt::IllFormed),
        },
        Val::Bool(b) => match op {
            UnaryOp::Not => Ok(Val::Bool(!*b)),
            UnaryOp::Neg => Err(Halt::IllFormed),
        },
        Val::Ptr(_) | Val::Tuple(_) | Val::Union(_) | Val::Variant(_, _) => Err(Halt::IllFormed),
    }
}

// The same of the bits of an integer.
fn unary_bits(op: UnaryOp, int: IntType, bits: u128) -> u128
    requires { bits < 2 ^ bits_of int }
    ensures { result ≡ unary_bits op int bits }
{
    match op {
        UnaryOp::Neg => crate::negate(int, bits),
        UnaryOp::Not => crate::invert(int, bits),
    }
}

/// The same number in another integer type.
pub fn cast(to: IntType, told: Option<IntType>, v: &Val) -> Result<Val, Halt>
    ensures { Says same result (cast_layer to told (out-Val v.now)) }
{
    match left_in(v, told) {
        Some((from, bits)) => Ok(Val::Int(crate::cast(from, to, bits))),
        None => Err(Halt::IllFormed),
    }
}
