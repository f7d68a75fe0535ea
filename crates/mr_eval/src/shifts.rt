//! Shifts of integers.
ghost use Rattle.std.specs.Prelude.{◌≡◌, ◌^◌, ◌<◌};
ghost use Rattle.mr_ast.specs.Integers.{bits_of};
ghost use Rattle.mr_eval.specs.Shift.{amount_of, is_amount as is_amount_lem, shifted_left, shifted_right, shift_of};

use crate::bits::{bits_of_number, signed_number, truncated};
use mr_ast::IntType;
use mr_base::Reason;

/// The shifts. The unchecked ones are undefined where the amount isn't from 0 to the width less one; for the others it counts
/// modulo the width.
#[derive(Clone, Copy, Debug, PartialEq, Eq)]
pub enum ShiftOp {
    Shl,
    Shr,
    ShlUnchecked,
    ShrUnchecked,
}

/// The bits `a` of type `t`, shifted by the number that the bits `b` of type `by` mean.
///
/// # Errors
///
/// `ShiftAmount` where an unchecked shift is by less than 0 bits, or by the width or more.
pub fn shift(op: ShiftOp, t: IntType, a: u128, by: IntType, b: u128) -> Result<u128, Reason>
    requires number { a < 2 ^ bits_of t }
    requires amount { b < 2 ^ bits_of by }
    ensures { result ≡ shift_of op t a by b }
{
    let amount = amount(t, by, b);
    match op {
        ShiftOp::Shl => Ok(left(t, a, amount)),
        ShiftOp::Shr => Ok(right(t, a, amount)),
        ShiftOp::ShlUnchecked if is_amount(t, by, b) => Ok(left(t, a, amount)),
        ShiftOp::ShrUnchecked if is_amount(t, by, b) => Ok(right(t, a, amount)),
        ShiftOp::ShlUnchecked | ShiftOp::ShrUnchecked => Err(Reason::ShiftAmount),
    }
}

// The width divides 2 to the width of each type, so that the sign of the amount doesn't matter.
fn amount(t: IntType, by: IntType, b: u128) -> u32
    requires { b < 2 ^ bits_of by }
    ensures value { result ≡ amount_of t by b }
    ensures within { result < bits_of t }
{
    (b % u128::from(t.bits())) as u32
}

// The bits of a negative number are 128 or more in each signed type.
fn is_amount(t: IntType, by: IntType, b: u128) -> bool
    requires { b < 2 ^ bits_of by }
    ensures { result ≡ is_amount_lem t by b }
{
    b < u128::from(t.bits())
}

fn left(t: IntType, a: u128, amount: u32) -> u128
    requires within { amount < bits_of t }
    requires number { a < 2 ^ bits_of t }
    ensures { result ≡ shifted_left t a amount }
{
    truncated(t, a << amount)
}

fn right(t: IntType, a: u128, amount: u32) -> u128
    requires within { amount < bits_of t }
    requires number { a < 2 ^ bits_of t }
    ensures { result ≡ shifted_right t a amount }
{
    if t.signed() {
        bits_of_number(t, signed_number(t, a) >> amount)
    } else {
        a >> amount
    }
}
