//! The parts of a value.
ghost use Rattle.std.specs.Prelude.{◌≡◌, ℕ, Bool, List};
ghost use Rattle.mr_ast.specs.declared.types.Num.{Num};
ghost use Rattle.mr_base.specs.declared.byte.AbstractByte.{AbstractByte};
ghost use Rattle.mr_base.specs.declared.byte.Pointer.{Pointer};
ghost use Rattle.mr_value.specs.declared.val.Val.{Val};

use crate::val::Val;
use mr_ast::Num;
use mr_base::{AbstractByte, Pointer};

/// The bits of an integer.
pub fn bits_in(v: &Val) -> u128
    requires { (bits : ℕ) × (v.now ≡ Val.Int bits) }
    ensures { v.now ≡ Val.Int result }
{
    match v {
        Val::Int(bits) => *bits,
        _ => unreachable!(),
    }
}

/// The truth of a bool.
pub fn truth_in(v: &Val) -> bool
    requires { (truth : Bool) × (v.now ≡ Val.Bool truth) }
    ensures { v.now ≡ Val.Bool result }
{
    match v {
        Val::Bool(truth) => *truth,
        _ => unreachable!(),
    }
}

/// The pointer of a value that is one.
pub(crate) fn pointer_in(v: &Val) -> Pointer
    requires { (pointer : Pointer) × (v.now ≡ Val.Ptr pointer) }
    ensures { v.now ≡ Val.Ptr result }
{
    match v {
        Val::Ptr(pointer) => *pointer,
        _ => unreachable!(),
    }
}

/// The fields or elements of a tuple or array.
pub(crate) fn values_in(v: &Val) -> &[Val]
    requires { (values : List Val) × (v.now ≡ Val.Tuple values) }
    ensures { v.now ≡ Val.Tuple result.now }
{
    match v {
        Val::Tuple(values) => values.as_slice(),
        _ => unreachable!(),
    }
}

/// The bytes of a union.
pub(crate) fn content_in(v: &Val) -> &[AbstractByte]
    requires { (content : List AbstractByte) × (v.now ≡ Val.Union content) }
    ensures { v.now ≡ Val.Union result.now }
{
    match v {
        Val::Union(content) => content.as_slice(),
        _ => unreachable!(),
    }
}

/// The discriminant of a variant, and the value in it.
pub(crate) fn variant_in(v: &Val) -> (Num, &Val)
    requires { (number : Num) × ((value : Val) × (v.now ≡ Val.Variant number value)) }
    ensures { v.now ≡ Val.Variant result.0 result.1.now }
{
    match v {
        Val::Variant(number, value) => (*number, value.get()),
        _ => unreachable!(),
    }
}
