//! Sizes and types that the machine looks up.
ghost use Rattle.std.specs.Prelude.{◌≡◌, Some, option_copied, option_map};
ghost use Rattle.mr_ast.specs.declared.types.Ty.{Ty};
ghost use Rattle.mr_eval.specs.Environment.{env_surround};
ghost use Rattle.mr_layout.specs.Sizes.{align_of, size_of};
ghost use Rattle.mr_layout.specs.TypeOk.{TypeOk};
ghost use Rattle.mr_mem.specs.Memory.{IsPowerOfTwo};
ghost use Rattle.mr_typing.specs.Known.{ty_of};
ghost use Rattle.mr_typing.specs.Types.{type_of_place, type_of_value};
ghost use Rattle.mr_frame.specs.Inside.{TypeAt};

use mr_ast::{Local, Place, Ty, Value};
use mr_eval::Env;
use mr_layout::Cache;
use mr_typing::{Known, discriminant, element, field, local_type, variant};

/// The type of a place in a function with these locals.
#[tactic(auto, using(mr_typing::proofs::TypeLaws::type_laws))]
pub fn place_type<'p>(locals: &'p [Local], place: &'p Place) -> Option<&'p Ty>
    ensures { option_copied result ≡ type_of_place locals.now place.now }
{
    match place {
        Place::Local(x) => local_type(locals, *x),
        Place::Deref(_, ty) => Some(ty),
        Place::Field(whole, number) => field(place_type(locals, whole.get())?, *number),
        Place::Index(array, _) => element(place_type(locals, array.get())?),
        Place::Variant(whole, number) => variant(place_type(locals, whole.get())?, *number),
    }
}

// The type of the discriminant of a place.
#[tactic(auto, using(mr_typing::proofs::TypeLaws::type_laws))]
fn discriminant_type<'p>(locals: &'p [Local], place: &'p Place) -> Option<Known<'p>>
    ensures { option_map ty_of result ≡ type_of_value locals.now (Value.Disc place.now) }
{
    let int = discriminant(place_type(locals, place)?)?;
    Some(Known::Int(int))
}

/// The type of a value in a function with these locals.
#[tactic(auto, using(mr_typing::proofs::TypeLaws::type_laws))]
pub fn value_type<'p>(locals: &'p [Local], value: &'p Value) -> Option<Known<'p>>
    ensures { option_map ty_of result ≡ type_of_value locals.now value.now }
{
    match value {
        Value::Int(int, _) | Value::Cast(int, _) => Some(Known::Int(*int)),
        Value::True | Value::False => Some(Known::Bool),
        Value::Raw(_) | Value::Global(_, _) => Some(Known::Raw),
        Value::Fn(_) => Some(Known::FnPtr),
        Value::Tuple(ty, _) => Some(Known::Written(ty)),
        Value::Union(ty, _, _) => Some(Known::Written(ty)),
        Value::Variant(ty, _, _) => Some(Known::Written(ty)),
        Value::AddrOf(ty, _) => Some(Known::Written(ty)),
        Value::Transmute(ty, _) => Some(Known::Written(ty)),
        Value::Load(place) => Some(Known::Written(place_type(locals, place)?)),
        Value::Disc(place) => discriminant_type(locals, place),
        Value::Unary(_, operand) => value_type(locals, operand.get()),
        Value::Binary(op, left, _) => value_type(locals, left.get())?.under(*op),
    }
}

/// The type of a place.
pub fn type_at<'a>(e: &Env<'a>, at: &'a Place) -> &'a Ty
    requires { (t : Ty) × TypeAt e.now at.now t }
    ensures { TypeAt e.now at.now result.now }
{
    match place_type(e.function_locals(), at) {
        Some(t) => t,
        None => unreachable!(),
    }
}

/// The type of a value.
pub fn type_with<'a>(e: &Env<'a>, v: &'a Value) -> Known<'a>
    requires { (t : Ty) × (type_of_value (env_surround e.now).locals v.now ≡ Some t) }
    ensures { type_of_value (env_surround e.now).locals v.now ≡ Some (ty_of result) }
{
    match value_type(e.function_locals(), v) {
        Some(t) => t,
        None => unreachable!(),
    }
}

/// How many bytes a value of the type takes.
pub fn byte_size(c: &Cache, t: &Ty) -> u64
    requires { TypeOk t.now }
    ensures { result ≡ size_of t.now }
{
    c.layout(t).size
}

/// The alignment of the type in bytes.
#[tactic(auto, using(crate::proofs::AlignPowers::type_ok_power))]
pub fn byte_align(c: &Cache, t: &Ty) -> u64
    requires { TypeOk t.now }
    ensures is { result ≡ align_of t.now }
    ensures power { IsPowerOfTwo result }
{
    c.layout(t).align
}
