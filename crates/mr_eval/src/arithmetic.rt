//! Sums, differences, products, quotients and remainders.
ghost use Rattle.std.specs.Prelude.{◌≡◌, ◌^◌, ◌<◌, true, false, ◌+ℤ◌, ◌-ℤ◌, ◌*ℤ◌, int_div, int_rem, pos, if◌then◌else◌};
ghost use Rattle.std.specs.Option.{option_map_or};
ghost use Rattle.mr_ast.specs.Integers.{bits_of, is_signed as is_signed_lem, fits};
ghost use Rattle.mr_eval.specs.Numbers.{value_of, bits_for};
ghost use Rattle.mr_eval.specs.Arith.{arith_of, overflowing_of, HasOverflowing, with_overflow, if_quotient_defined};

use crate::bits::{all_ones, bits_of_number, signed_number, truncated};
use mr_ast::IntType;
use mr_base::Reason;

/// The arithmetic operators. The unchecked ones are undefined where the exact result isn't a number of the type.
#[derive(Clone, Copy, Debug, PartialEq, Eq)]
pub enum ArithOp {
    Add,
    Sub,
    Mul,
    Div,
    Rem,
    And,
    Or,
    Xor,
    AddUnchecked,
    SubUnchecked,
    MulUnchecked,
}

/// What the operator gives of two numbers of a type, by their bits.
///
/// # Errors
///
/// `Overflow` where the exact result of an unchecked operator isn't a number of the type, `ZeroDivisor` where `Div` or `Rem`
/// divides by 0, and `DivOverflow` where they divide the least number of a signed type by -1.
pub fn arith(op: ArithOp, t: IntType, a: u128, b: u128) -> Result<u128, Reason>
    requires left { a < 2 ^ bits_of t }
    requires right { b < 2 ^ bits_of t }
    ensures { result ≡ arith_of op t a b }
{
    match op {
        ArithOp::Add => Ok(sum(t, a, b).0),
        ArithOp::Sub => Ok(difference(t, a, b).0),
        ArithOp::Mul => Ok(product(t, a, b).0),
        ArithOp::Div => quotient(t, a, b),
        ArithOp::Rem => remainder(t, a, b),
        ArithOp::And => Ok(a & b),
        ArithOp::Or => Ok(a | b),
        ArithOp::Xor => Ok(a ^ b),
        ArithOp::AddUnchecked => unless_overflow(sum(t, a, b)),
        ArithOp::SubUnchecked => unless_overflow(difference(t, a, b)),
        ArithOp::MulUnchecked => unless_overflow(product(t, a, b)),
    }
}

/// The wrapped result of `Add`, `Sub` or `Mul`, and whether the exact one isn't a number of the type.
pub fn overflowing(op: ArithOp, t: IntType, a: u128, b: u128) -> (u128, bool)
    requires op { HasOverflowing op }
    requires left { a < 2 ^ bits_of t }
    requires right { b < 2 ^ bits_of t }
    ensures { result ≡ overflowing_of op t a b }
{
    match op {
        ArithOp::Add => sum(t, a, b),
        ArithOp::Sub => difference(t, a, b),
        ArithOp::Mul => product(t, a, b),
        _ => unreachable!(),
    }
}

fn unless_overflow(outcome: (u128, bool)) -> Result<u128, Reason>
    ensures { result ≡ (if outcome.1 then Err Reason.Overflow else Ok outcome.0) }
{
    let (bits, overflow) = outcome;
    if overflow {
        Err(Reason::Overflow)
    } else {
        Ok(bits)
    }
}

fn sum(t: IntType, a: u128, b: u128) -> (u128, bool)
    requires left { a < 2 ^ bits_of t }
    requires right { b < 2 ^ bits_of t }
    ensures { result ≡ with_overflow t (value_of t a +ℤ value_of t b) }
{
    let bits = truncated(t, a.wrapping_add(b));
    (bits, !sum_fits(t, a, b))
}

fn sum_fits(t: IntType, a: u128, b: u128) -> bool
    requires left { a < 2 ^ bits_of t }
    requires right { b < 2 ^ bits_of t }
    ensures { result ≡ fits t (value_of t a +ℤ value_of t b) }
{
    if t.signed() {
        signed_fits(t, signed_number(t, a).checked_add(signed_number(t, b)))
    } else {
        unsigned_fits(t, a.checked_add(b))
    }
}

fn difference(t: IntType, a: u128, b: u128) -> (u128, bool)
    requires left { a < 2 ^ bits_of t }
    requires right { b < 2 ^ bits_of t }
    ensures { result ≡ with_overflow t (value_of t a -ℤ value_of t b) }
{
    let bits = truncated(t, a.wrapping_sub(b));
    (bits, !difference_fits(t, a, b))
}

fn difference_fits(t: IntType, a: u128, b: u128) -> bool
    requires left { a < 2 ^ bits_of t }
    requires right { b < 2 ^ bits_of t }
    ensures { result ≡ fits t (value_of t a -ℤ value_of t b) }
{
    if t.signed() {
        signed_fits(t, signed_number(t, a).checked_sub(signed_number(t, b)))
    } else {
        unsigned_fits(t, a.checked_sub(b))
    }
}

fn product(t: IntType, a: u128, b: u128) -> (u128, bool)
    requires left { a < 2 ^ bits_of t }
    requires right { b < 2 ^ bits_of t }
    ensures { result ≡ with_overflow t (value_of t a *ℤ value_of t b) }
{
    let bits = truncated(t, a.wrapping_mul(b));
    (bits, !product_fits(t, a, b))
}

fn product_fits(t: IntType, a: u128, b: u128) -> bool
    requires left { a < 2 ^ bits_of t }
    requires right { b < 2 ^ bits_of t }
    ensures { result ≡ fits t (value_of t a *ℤ value_of t b) }
{
    if t.signed() {
        signed_fits(t, signed_number(t, a).checked_mul(signed_number(t, b)))
    } else {
        unsigned_fits(t, a.checked_mul(b))
    }
}

// Whether an exact result that an `i128` holds is a number of the signed type.
fn signed_fits(t: IntType, exact: Option<i128>) -> bool
    requires { is_signed_lem t ≡ true }
    ensures { result ≡ option_map_or (fits t) exact false }
{
    match exact {
        None => false,
        Some(number) => t.least() <= number && number <= t.greatest(),
    }
}

// Whether an exact result that a `u128` holds is a number of the unsigned type.
fn unsigned_fits(t: IntType, exact: Option<u128>) -> bool
    requires { is_signed_lem t ≡ false }
    ensures { result ≡ option_map_or (λ n. fits t (pos n)) exact false }
{
    match exact {
        None => false,
        Some(number) => number <= all_ones(t),
    }
}

fn quotient(t: IntType, a: u128, b: u128) -> Result<u128, Reason>
    requires left { a < 2 ^ bits_of t }
    requires right { b < 2 ^ bits_of t }
    ensures { result
        ≡ if_quotient_defined t (value_of t a) (value_of t b) (bits_for t (int_div (value_of t a) (value_of t b))) }
{
    check_division(t, a, b)?;
    Ok(quotient_bits(t, a, b))
}

fn quotient_bits(t: IntType, a: u128, b: u128) -> u128
    requires left { a < 2 ^ bits_of t }
    requires right { b < 2 ^ bits_of t }
    requires nonzero { 0 < b }
    ensures { result ≡ bits_for t (int_div (value_of t a) (value_of t b)) }
{
    if t.signed() {
        let quotient = signed_number(t, a).wrapping_div(signed_number(t, b));
        bits_of_number(t, quotient)
    } else {
        a / b
    }
}

fn remainder(t: IntType, a: u128, b: u128) -> Result<u128, Reason>
    requires left { a < 2 ^ bits_of t }
    requires right { b < 2 ^ bits_of t }
    ensures { result
        ≡ if_quotient_defined t (value_of t a) (value_of t b) (bits_for t (int_rem (value_of t a) (value_of t b))) }
{
    check_division(t, a, b)?;
    Ok(remainder_bits(t, a, b))
}

fn remainder_bits(t: IntType, a: u128, b: u128) -> u128
    requires left { a < 2 ^ bits_of t }
    requires right { b < 2 ^ bits_of t }
    requires nonzero { 0 < b }
    ensures { result ≡ bits_for t (int_rem (value_of t a) (value_of t b)) }
{
    if t.signed() {
        let remainder = signed_number(t, a).wrapping_rem(signed_number(t, b));
        bits_of_number(t, remainder)
    } else {
        a % b
    }
}

// Whether the quotient of two numbers is defined.
fn check_division(t: IntType, a: u128, b: u128) -> Result<(), Reason>
    requires left { a < 2 ^ bits_of t }
    requires right { b < 2 ^ bits_of t }
    ensures { result ≡ if_quotient_defined t (value_of t a) (value_of t b) tt }
{
    if b == 0 {
        return Err(Reason::ZeroDivisor);
    }
    if t.signed() && signed_number(t, a) == t.least() && b == all_ones(t) {
        return Err(Reason::DivOverflow);
    }
    Ok(())
}
