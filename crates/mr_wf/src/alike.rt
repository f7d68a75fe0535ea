//! What the list of a function's types tells of its places and values, and else their types.
ghost use Rattle.std.specs.Prelude.{◌≡◌, Ok, map, IsTrue, option_copied, slice_get};
ghost use Rattle.mr_typing.specs.Judging.{judged_place, judged_value, judged_values};
ghost use Rattle.mr_typing.specs.Known.{ty_of};
ghost use Rattle.mr_typing.specs.Operands.{match_element};
ghost use Rattle.mr_typing.specs.SameTypes.{same_type};
ghost use Rattle.mr_typing.specs.Types.{variant_type};
ghost use Rattle.mr_wf.specs.Gives.{surroundings_of};
ghost use Rattle.mr_wf.specs.Listed.{AlikeSome, AlikeValue, AlikeValues, HasType};

use crate::judging::Surroundings;
use crate::kinds::has_parts;
use crate::listed::TypeList;
use mr_ast::{Num, Place, Ty, Value};
use mr_typing::{Known, variant};

/// The type of the variant with this number of the enum at a place, whose type is given.
#[tactic(auto, using(crate::proofs::ListedLaws::variant_told))]
pub fn variant_at<'p>(at: Surroundings<'p>, whole: &Place, t: &'p Ty, number: Num) -> Option<&'p Ty>
    requires { judged_place (surroundings_of at) whole.now ≡ Ok t.now }
    ensures { option_copied result ≡ variant_type t.now number }
{
    match at.listed.variant(whole, number) {
        Some(found) => Some(found),
        None => variant(t, number),
    }
}

// Whether the list tells that a value is loaded from a place of the same type as this one.
fn is_alike(list: &TypeList<'_>, place: &Place, value: &Value) -> bool
    ensures { IsTrue result → AlikeValue list.now place.now value.now }
{
    match value {
        Value::Load(from) => list.are_alike(place, from),
        _ => false,
    }
}

// Whether the list tells that two values are loaded from places of one type.
fn are_alike(list: &TypeList<'_>, value: &Value, other: &Value) -> bool
    ensures { IsTrue result → AlikeValues list.now value.now other.now }
{
    match value {
        Value::Load(from) => is_alike(list, from, other),
        _ => false,
    }
}

/// Whether a place takes a value, where the types of both are given.
#[tactic(auto, using(crate::proofs::ListedLaws::same_from))]
pub fn takes(at: Surroundings<'_>, place: &Place, value: &Value, t: &Ty, u: Known<'_>) -> bool
    requires place { judged_place (surroundings_of at) place.now ≡ Ok t.now }
    requires value { judged_value (surroundings_of at) value.now ≡ Ok (ty_of u) }
    ensures { result ≡ same_type t.now (ty_of u.entry) }
{
    if has_parts(t) && is_alike(at.listed, place, value) {
        return true;
    }
    Known::Written(t).same(u)
}

// Whether the list tells that two values, where both are there, are loaded from places of one type.
fn are_some_alike(list: &TypeList<'_>, last: Option<&Value>, value: Option<&Value>) -> bool
    ensures { IsTrue result → AlikeSome list.now last.entry value.entry }
{
    match (last, value) {
        (Some(last), Some(value)) => are_alike(list, last, value),
        _ => false,
    }
}

// Whether a type is that of the elements, where that of the last value was.
#[tactic(auto, using(crate::proofs::ListedLaws::element_alike))]
fn is_element(
    at: Surroundings<'_>,
    last: Option<&Value>,
    value: Option<&Value>,
    t: Known<'_>,
    elem: &Ty,
) -> bool
    requires last { HasType (surroundings_of at) last elem.now }
    requires value { HasType (surroundings_of at) value (ty_of t) }
    ensures { result ≡ same_type (ty_of t.entry) elem.now }
{
    if has_parts(elem) && are_some_alike(at.listed, last, value) {
        return true;
    }
    t.same(Known::Written(elem))
}

fn value_at(values: &[Value], i: usize) -> Option<&Value>
    ensures { option_copied result ≡ slice_get values.now i }
{
    values.get(i)
}

/// Whether each of some values, whose types are given, is one of the elements.
pub fn match_element(at: Surroundings<'_>, values: &[Value], elem: &Ty, types: &[Known<'_>]) -> bool
    requires { judged_values (surroundings_of at) values.now ≡ Ok (map ty_of types.now) }
    ensures { result ≡ match_element elem.now (map ty_of types.now) }
{
    let mut last = None;
    for (i, t) in types.iter().enumerate() {
        let value = value_at(values, i);
        if !is_element(at, last, value, *t, elem) {
            return false;
        }
        last = value;
    }
    true
}
