//! Bits and the numbers that they mean.
ghost use Rattle.std.specs.Prelude.{◌≡◌, ◌-◌, ◌%◌, ◌^◌, ◌<◌, true};
ghost use Rattle.mr_ast.specs.Integers.{bits_of, is_signed as is_signed_lem, least_of, greatest_of};
ghost use Rattle.mr_eval.specs.Numbers.{value_of, bits_for};

use mr_ast::IntType;

/// A one at each place of the width.
pub(crate) fn all_ones(t: IntType) -> u128
    ensures { result ≡ 2 ^ bits_of t - 1 }
{
    u128::MAX >> (128 - t.bits())
}

/// The bits below the width.
pub(crate) fn truncated(t: IntType, bits: u128) -> u128
    ensures { result ≡ bits % 2 ^ bits_of t }
{
    bits & all_ones(t)
}

/// The number that the bits of a signed type mean.
pub(crate) fn signed_number(t: IntType, bits: u128) -> i128
    requires signed { is_signed_lem t ≡ true }
    requires within { bits < 2 ^ bits_of t }
    ensures { result ≡ value_of t bits }
{
    let spare = 128 - t.bits();
    (bits << spare).cast_signed() >> spare
}

/// The bits of a number, cut to the width of the type.
pub(crate) fn bits_of_number(t: IntType, number: i128) -> u128
    ensures { result ≡ bits_for t number }
{
    truncated(t, number.cast_unsigned())
}
