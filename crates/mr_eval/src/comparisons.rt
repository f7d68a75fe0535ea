//! Comparisons of integers.
ghost use Rattle.std.specs.Prelude.{◌≡◌, ◌^◌, ◌<◌};
ghost use Rattle.std.specs.Ordering.{int_cmp};
ghost use Rattle.mr_ast.specs.Integers.{bits_of};
ghost use Rattle.mr_eval.specs.Numbers.{value_of};
ghost use Rattle.mr_eval.specs.Compare.{compare_of};

use crate::bits::signed_number;
use mr_ast::IntType;
use std::cmp::Ordering;

/// The comparisons.
#[derive(Clone, Copy, Debug, PartialEq, Eq)]
pub enum CmpOp {
    Eq,
    Ne,
    Lt,
    Le,
    Gt,
    Ge,
}

/// What the comparison answers of the numbers that the bits mean.
pub fn compare(op: CmpOp, t: IntType, a: u128, b: u128) -> bool
    requires left { a < 2 ^ bits_of t }
    requires right { b < 2 ^ bits_of t }
    ensures { result ≡ compare_of op t a b }
{
    let order = order(t, a, b);
    match op {
        CmpOp::Eq => order.is_eq(),
        CmpOp::Ne => order.is_ne(),
        CmpOp::Lt => order.is_lt(),
        CmpOp::Le => order.is_le(),
        CmpOp::Gt => order.is_gt(),
        CmpOp::Ge => order.is_ge(),
    }
}

fn order(t: IntType, a: u128, b: u128) -> Ordering
    requires left { a < 2 ^ bits_of t }
    requires right { b < 2 ^ bits_of t }
    ensures { result ≡ int_cmp (value_of t a) (value_of t b) }
{
    if t.signed() {
        signed_number(t, a).cmp(&signed_number(t, b))
    } else {
        a.cmp(&b)
    }
}
