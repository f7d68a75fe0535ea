//! Integers and bools, as numbers or truths.
ghost use Rattle.std.specs.Prelude.{◌≡◌, Some, true};
ghost use Rattle.mr_value.specs.Shape.{has_shape};
ghost use Rattle.mr_typing.specs.Known.{ty_of};
ghost use Rattle.mr_typing.specs.Operands.{is_scalar_number};
ghost use Rattle.mr_eval.specs.Scalars.{scalar_as};

use mr_ast::Num;
use mr_value::{Val, bits_in, number_of_bits, truth_in};
use mr_typing::Known;

/// An integer or a bool.
#[derive(Clone, Copy, Debug, PartialEq, Eq)]
pub enum Scalar {
    Number(Num),
    Truth(bool),
}

/// What a value of an integer type or bool is.
#[tactic(auto, using(crate::proofs::ScalarLaws::scalar_laws))]
pub fn scalar_of(t: Known<'_>, v: &Val) -> Scalar
    requires scalar { is_scalar_number (ty_of t) ≡ true }
    requires shape { has_shape (ty_of t) v.now ≡ true }
    ensures { scalar_as (ty_of t.entry) v.now ≡ Some result }
{
    match t.integer() {
        Some(int) => Scalar::Number(number_of_bits(int, bits_in(v))),
        None => Scalar::Truth(truth_in(v)),
    }
}

impl Scalar {
    ghost use Rattle.std.specs.Prelude.{◌≡◌};
    ghost use Rattle.mr_eval.specs.Scalars.{number_of};

    /// As a number: a bool is 0 or 1.
    pub fn number(self) -> Num
        ensures { result ≡ number_of self }
    {
        match self {
            Scalar::Number(number) => number,
            Scalar::Truth(truth) => Num {
                neg: false,
                mag: if truth { 1 } else { 0 },
            },
        }
    }
}
