//! Casts between integer types, and the operators on one number.
ghost use Rattle.std.specs.Prelude.{◌≡◌, ◌^◌, ◌<◌};
ghost use Rattle.mr_ast.specs.Integers.{bits_of};
ghost use Rattle.mr_eval.specs.Cast.{cast_of, negate_of, invert_of};

use crate::bits::{bits_of_number, signed_number, truncated};
use mr_ast::IntType;

/// The bits of the same number in the type `to`, modulo 2 to its width.
pub fn cast(from: IntType, to: IntType, a: u128) -> u128
    requires { a < 2 ^ bits_of from }
    ensures { result ≡ cast_of from to a }
{
    if from.signed() {
        bits_of_number(to, signed_number(from, a))
    } else {
        truncated(to, a)
    }
}

/// The bits of the number with the other sign, which wraps at the least number of a signed type.
pub fn negate(t: IntType, a: u128) -> u128
    requires { a < 2 ^ bits_of t }
    ensures { result ≡ negate_of t a }
{
    truncated(t, a.wrapping_neg())
}

/// Each bit of the width flipped.
pub fn invert(t: IntType, a: u128) -> u128
    requires { a < 2 ^ bits_of t }
    ensures { result ≡ invert_of t a }
{
    truncated(t, !a)
}
