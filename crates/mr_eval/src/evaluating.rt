//! The evaluation of places and values, by their cases.
ghost use Rattle.std.specs.Prelude.{◌≡◌, IfOk, Some, is_some, option_map, slice_get, true};
ghost use Rattle.mr_ast.specs.declared.types.Ty.{out-Ty};
ghost use Rattle.mr_base.specs.Script.{run};
ghost use Rattle.mr_value.specs.declared.val.Val.{out-Val};
ghost use Rattle.mr_value.specs.declared.val.Val.TheVariants as val;
ghost use Rattle.mr_eval.specs.Answers.{Extends, Gives, Says, at_pointer, beside_of, same, surround_of, seen, value_in};
ghost use Rattle.mr_eval.specs.Evaluated.{each_valued, placed, valued};
ghost use Rattle.mr_eval.specs.Evaluation.{bare};
ghost use Rattle.mr_eval.specs.Sound.{SoundPlace, SoundValue, SoundValues};
ghost use Rattle.mr_typing.specs.Known.{ty_of};
ghost use Rattle.mr_typing.specs.Types.{result_type, type_of_place, type_of_value};

use crate::halt::Halt;
use crate::here::Here;
use crate::moving::behind;
use crate::notes::Notes;
use crate::placing::{Placed, element_by, field, local, target, variant};
use crate::valuing::{
    Valued, binary_value, cast_value, discriminant, integer, loaded_value, transmuted_value, typed,
    unary_value, union_value, variant_value,
};
use mr_ast::{BinaryOp, IntType, Items, Num, Place, Ty, UnaryOp, Value};
use mr_base::Pointer;
use mr_typing::Known;
use mr_value::{Val, bits_of_number};

/// Where a place is, and its type.
#[cycle(evaluated)]
#[tactic(auto, using(crate::proofs::EvalRuns::eval_laws, crate::proofs::SoundParts::sound_laws, crate::proofs::SoundParts::type_facts, crate::proofs::SoundParts::int_fits, mr_typing::proofs::TypeLaws::type_laws, crate::proofs::ExtendsLaws::extends_laws))]
pub fn placed<'p>(here: &Here<'p>, notes: &mut Notes, place: &'p Place) -> Result<Placed<'p>, Halt>
    requires { SoundPlace (surround_of here.now) place.now }
    ensures given { Gives at_pointer result
        (placed here.now.memory.now (surround_of here.now) place.now (seen notes.old))
        (seen notes.new) notes.new.refused }
    ensures ty { IfOk result (λ p. type_of_place here.now.locals.now place.now ≡ Some p.ty.now) }
    ensures kept { Extends (seen notes.old) (seen notes.new) }
{
    match place {
        Place::Local(x) => local(here.locals, here.storage, *x),
        Place::Deref(pointer, ty) => pointed_place(here, notes, pointer.get(), ty),
        Place::Field(whole, number) => field_place(here, notes, whole.get(), *number),
        Place::Index(array, index) => indexed_place(here, notes, array.get(), index.get()),
        Place::Variant(whole, number) => variant_place(here, notes, whole.get(), *number),
    }
}

// The target of the pointer that a value is.
#[cycle(evaluated)]
#[tactic(auto, using(crate::proofs::EvalRuns::eval_laws, crate::proofs::SoundParts::sound_laws, crate::proofs::SoundParts::type_facts, crate::proofs::SoundParts::int_fits, mr_typing::proofs::TypeLaws::type_laws, crate::proofs::ExtendsLaws::extends_laws))]
fn pointed_place<'p>(
    here: &Here<'p>,
    notes: &mut Notes,
    pointer: &'p Value,
    ty: &'p Ty,
) -> Result<Placed<'p>, Halt>
    requires { SoundPlace (surround_of here.now) (Place.Deref pointer.now ty.now) }
    ensures given { Gives at_pointer result (placed here.now.memory.now (surround_of here.now)
        (Place.Deref pointer.now ty.now) (seen notes.old)) (seen notes.new) notes.new.refused }
    ensures ty { IfOk result (λ p. type_of_place here.now.locals.now (Place.Deref pointer.now ty.now) ≡ Some p.ty.now) }
    ensures kept { Extends (seen notes.old) (seen notes.new) }
{
    let v = valued(here, notes, pointer)?;
    target(v.value, ty)
}

// A field of a whole.
#[cycle(evaluated)]
#[tactic(auto, using(crate::proofs::EvalRuns::eval_laws, crate::proofs::SoundParts::sound_laws, crate::proofs::SoundParts::type_facts, crate::proofs::SoundParts::int_fits, mr_typing::proofs::TypeLaws::type_laws, crate::proofs::ExtendsLaws::extends_laws))]
fn field_place<'p>(
    here: &Here<'p>,
    notes: &mut Notes,
    whole: &'p Place,
    number: u64,
) -> Result<Placed<'p>, Halt>
    requires { SoundPlace (surround_of here.now) (Place.Field whole.now number) }
    ensures given { Gives at_pointer result (placed here.now.memory.now (surround_of here.now)
        (Place.Field whole.now number) (seen notes.old)) (seen notes.new) notes.new.refused }
    ensures ty { IfOk result (λ p. type_of_place here.now.locals.now (Place.Field whole.now number) ≡ Some p.ty.now) }
    ensures kept { Extends (seen notes.old) (seen notes.new) }
{
    let p = placed(here, notes, whole)?;
    field(here.memory, notes, p, number)
}

// The same bytes as a variant.
#[cycle(evaluated)]
#[tactic(auto, using(crate::proofs::EvalRuns::eval_laws, crate::proofs::SoundParts::sound_laws, crate::proofs::SoundParts::type_facts, crate::proofs::SoundParts::int_fits, mr_typing::proofs::TypeLaws::type_laws, crate::proofs::ExtendsLaws::extends_laws))]
fn variant_place<'p>(
    here: &Here<'p>,
    notes: &mut Notes,
    whole: &'p Place,
    number: Num,
) -> Result<Placed<'p>, Halt>
    requires { SoundPlace (surround_of here.now) (Place.Variant whole.now number) }
    ensures given { Gives at_pointer result (placed here.now.memory.now (surround_of here.now)
        (Place.Variant whole.now number) (seen notes.old)) (seen notes.new) notes.new.refused }
    ensures ty { IfOk result (λ p. type_of_place here.now.locals.now (Place.Variant whole.now number) ≡ Some p.ty.now) }
    ensures kept { Extends (seen notes.old) (seen notes.new) }
{
    let p = placed(here, notes, whole)?;
    Ok(variant(p, number))
}

// The element of an array at the position that a value tells.
#[cycle(evaluated)]
#[tactic(auto, using(crate::proofs::EvalRuns::eval_laws, crate::proofs::SoundParts::sound_laws, crate::proofs::SoundParts::type_facts, crate::proofs::SoundParts::int_fits, mr_typing::proofs::TypeLaws::type_laws, crate::proofs::ExtendsLaws::extends_laws))]
fn indexed_place<'p>(
    here: &Here<'p>,
    notes: &mut Notes,
    array: &'p Place,
    index: &'p Value,
) -> Result<Placed<'p>, Halt>
    requires { SoundPlace (surround_of here.now) (Place.Index array.now index.now) }
    ensures given { Gives at_pointer result (placed here.now.memory.now (surround_of here.now)
        (Place.Index array.now index.now) (seen notes.old)) (seen notes.new) notes.new.refused }
    ensures ty { IfOk result
        (λ p. type_of_place here.now.locals.now (Place.Index array.now index.now) ≡ Some p.ty.now) }
    ensures kept { Extends (seen notes.old) (seen notes.new) }
{
    let p = placed(here, notes, array)?;
    let i = valued(here, notes, index)?;
    element_by(here.cache, here.memory, notes, p, i.value)
}

// The pointer with this number.
fn named(pointers: &[Pointer], number: u32) -> Option<Pointer>
    ensures { result ≡ slice_get pointers.now number }
{
    pointers.get(number as usize).copied()
}

// A pointer without provenance.
fn bare(addr: u64) -> Pointer
    ensures { result ≡ bare addr }
{
    Pointer { addr, prov: None }
}

/// What a value is, and its type.
#[cycle(evaluated)]
#[tactic(auto, using(crate::proofs::EvalRuns::eval_laws, crate::proofs::SoundParts::sound_laws, crate::proofs::SoundParts::type_facts, crate::proofs::SoundParts::int_fits, mr_typing::proofs::TypeLaws::type_laws, crate::proofs::ExtendsLaws::extends_laws))]
pub fn valued<'p>(here: &Here<'p>, notes: &mut Notes, value: &'p Value) -> Result<Valued<'p>, Halt>
    requires { SoundValue (surround_of here.now) value.now }
    ensures given { Gives value_in result (valued here.now.memory.now (surround_of here.now) value.now (seen notes.old))
        (seen notes.new) notes.new.refused }
    ensures ty { IfOk result (λ v. type_of_value here.now.locals.now value.now ≡ Some (ty_of v.ty)) }
    ensures kept { Extends (seen notes.old) (seen notes.new) }
{
    match value {
        Value::Load(place) => load_expression(here, notes, place),
        Value::Int(int, number) => Ok(integer(bits_of_number(*int, *number), *int)),
        Value::True => Ok(typed(Val::Bool(true), Known::Bool)),
        Value::False => Ok(typed(Val::Bool(false), Known::Bool)),
        Value::Raw(addr) => Ok(typed(Val::Ptr(bare(*addr)), Known::Raw)),
        Value::Fn(f) => match named(here.functions, f.0) {
            Some(p) => Ok(typed(Val::Ptr(p), Known::FnPtr)),
            None => Err(Halt::IllFormed),
        },
        Value::Global(g, offset) => match named(here.globals, g.0) {
            Some(p) => Ok(typed(Val::Ptr(behind(p, *offset)), Known::Raw)),
            None => Err(Halt::IllFormed),
        },
        Value::Disc(place) => disc_expression(here, notes, place),
        Value::AddrOf(ty, place) => address_expression(here, notes, ty, place),
        Value::Cast(int, operand) => cast_expression(here, notes, *int, operand.get()),
        Value::Unary(op, operand) => unary_expression(here, notes, *op, operand.get()),
        Value::Variant(ty, number, content) => {
            variant_expression(here, notes, ty, *number, content.get())
        }
        Value::Tuple(ty, values) => tuple_expression(here, notes, ty, values.as_slice()),
        Value::Union(ty, number, content) => {
            union_expression(here, notes, ty, *number, content.get())
        }
        Value::Transmute(ty, operand) => transmute_expression(here, notes, ty, operand.get()),
        Value::Binary(op, left, right) => {
            binary_expression(here, notes, *op, left.get(), right.get())
        }
    }
}

// The load of a place.
#[cycle(evaluated)]
#[tactic(auto, using(crate::proofs::EvalRuns::eval_laws, crate::proofs::SoundParts::sound_laws, crate::proofs::SoundParts::type_facts, crate::proofs::SoundParts::int_fits, mr_typing::proofs::TypeLaws::type_laws, crate::proofs::ExtendsLaws::extends_laws))]
fn load_expression<'p>(
    here: &Here<'p>,
    notes: &mut Notes,
    place: &'p Place,
) -> Result<Valued<'p>, Halt>
    requires { SoundValue (surround_of here.now) (Value.Load place.now) }
    ensures given { Gives value_in result (valued here.now.memory.now (surround_of here.now)
        (Value.Load place.now) (seen notes.old)) (seen notes.new) notes.new.refused }
    ensures ty { IfOk result (λ v. type_of_value here.now.locals.now (Value.Load place.now) ≡ Some (ty_of v.ty)) }
    ensures kept { Extends (seen notes.old) (seen notes.new) }
{
    let p = placed(here, notes, place)?;
    loaded_value(here, notes, p)
}

// The discriminant that a place holds.
#[cycle(evaluated)]
#[tactic(auto, using(crate::proofs::EvalRuns::eval_laws, crate::proofs::SoundParts::sound_laws, crate::proofs::SoundParts::type_facts, crate::proofs::SoundParts::int_fits, mr_typing::proofs::TypeLaws::type_laws, crate::proofs::ExtendsLaws::extends_laws))]
fn disc_expression<'p>(
    here: &Here<'p>,
    notes: &mut Notes,
    place: &'p Place,
) -> Result<Valued<'p>, Halt>
    requires { SoundValue (surround_of here.now) (Value.Disc place.now) }
    ensures given { Gives value_in result (valued here.now.memory.now (surround_of here.now)
        (Value.Disc place.now) (seen notes.old)) (seen notes.new) notes.new.refused }
    ensures ty { IfOk result (λ v. type_of_value here.now.locals.now (Value.Disc place.now) ≡ Some (ty_of v.ty)) }
    ensures kept { Extends (seen notes.old) (seen notes.new) }
{
    let p = placed(here, notes, place)?;
    discriminant(here.memory, notes, p)
}

// A pointer to a place.
#[cycle(evaluated)]
#[tactic(auto, using(crate::proofs::EvalRuns::eval_laws, crate::proofs::SoundParts::sound_laws, crate::proofs::SoundParts::type_facts, crate::proofs::SoundParts::int_fits, mr_typing::proofs::TypeLaws::type_laws, crate::proofs::ExtendsLaws::extends_laws))]
fn address_expression<'p>(
    here: &Here<'p>,
    notes: &mut Notes,
    ty: &'p Ty,
    place: &'p Place,
) -> Result<Valued<'p>, Halt>
    requires { SoundValue (surround_of here.now) (Value.AddrOf ty.now place.now) }
    ensures given { Gives value_in result (valued here.now.memory.now (surround_of here.now)
        (Value.AddrOf ty.now place.now) (seen notes.old)) (seen notes.new) notes.new.refused }
    ensures ty { IfOk result
        (λ v. type_of_value here.now.locals.now (Value.AddrOf ty.now place.now) ≡ Some (ty_of v.ty)) }
    ensures kept { Extends (seen notes.old) (seen notes.new) }
{
    let p = placed(here, notes, place)?;
    Ok(typed(Val::Ptr(p.at), Known::Written(ty)))
}

// A value as another integer type.
#[cycle(evaluated)]
#[tactic(auto, using(crate::proofs::EvalRuns::eval_laws, crate::proofs::SoundParts::sound_laws, crate::proofs::SoundParts::type_facts, crate::proofs::SoundParts::int_fits, mr_typing::proofs::TypeLaws::type_laws, crate::proofs::ExtendsLaws::extends_laws))]
fn cast_expression<'p>(
    here: &Here<'p>,
    notes: &mut Notes,
    int: IntType,
    operand: &'p Value,
) -> Result<Valued<'p>, Halt>
    requires { SoundValue (surround_of here.now) (Value.Cast int operand.now) }
    ensures given { Gives value_in result (valued here.now.memory.now (surround_of here.now)
        (Value.Cast int operand.now) (seen notes.old)) (seen notes.new) notes.new.refused }
    ensures ty { IfOk result (λ v. type_of_value here.now.locals.now (Value.Cast int operand.now) ≡ Some (ty_of v.ty)) }
    ensures kept { Extends (seen notes.old) (seen notes.new) }
{
    let v = valued(here, notes, operand)?;
    cast_value(int, v)
}

// An operator with one operand.
#[cycle(evaluated)]
#[tactic(auto, using(crate::proofs::EvalRuns::eval_laws, crate::proofs::SoundParts::sound_laws, crate::proofs::SoundParts::type_facts, crate::proofs::SoundParts::int_fits, mr_typing::proofs::TypeLaws::type_laws, crate::proofs::ExtendsLaws::extends_laws))]
fn unary_expression<'p>(
    here: &Here<'p>,
    notes: &mut Notes,
    op: UnaryOp,
    operand: &'p Value,
) -> Result<Valued<'p>, Halt>
    requires { SoundValue (surround_of here.now) (Value.Unary op operand.now) }
    ensures given { Gives value_in result (valued here.now.memory.now (surround_of here.now)
        (Value.Unary op operand.now) (seen notes.old)) (seen notes.new) notes.new.refused }
    ensures ty { IfOk result (λ v. type_of_value here.now.locals.now (Value.Unary op operand.now) ≡ Some (ty_of v.ty)) }
    ensures kept { Extends (seen notes.old) (seen notes.new) }
{
    let v = valued(here, notes, operand)?;
    unary_value(op, v)
}

// The values of a row as one.
#[cycle(evaluated)]
#[tactic(auto, using(crate::proofs::EvalRuns::eval_laws, crate::proofs::SoundParts::sound_laws, crate::proofs::SoundParts::type_facts, crate::proofs::SoundParts::int_fits, mr_typing::proofs::TypeLaws::type_laws, crate::proofs::ExtendsLaws::extends_laws))]
fn tuple_expression<'p>(
    here: &Here<'p>,
    notes: &mut Notes,
    ty: &'p Ty,
    values: &'p [Value],
) -> Result<Valued<'p>, Halt>
    requires { SoundValue (surround_of here.now) (Value.Tuple ty.now values.now) }
    ensures given { Gives value_in result (valued here.now.memory.now (surround_of here.now)
        (Value.Tuple ty.now values.now) (seen notes.old)) (seen notes.new) notes.new.refused }
    ensures ty { IfOk result
        (λ v. type_of_value here.now.locals.now (Value.Tuple ty.now values.now) ≡ Some (ty_of v.ty)) }
    ensures kept { Extends (seen notes.old) (seen notes.new) }
{
    let row = each_valued(here, notes, values)?;
    Ok(typed(Val::Tuple(row), Known::Written(ty)))
}

// A variant of an enum.
#[cycle(evaluated)]
#[tactic(auto, using(crate::proofs::EvalRuns::eval_laws, crate::proofs::SoundParts::sound_laws, crate::proofs::SoundParts::type_facts, crate::proofs::SoundParts::int_fits, mr_typing::proofs::TypeLaws::type_laws, crate::proofs::ExtendsLaws::extends_laws))]
fn variant_expression<'p>(
    here: &Here<'p>,
    notes: &mut Notes,
    ty: &'p Ty,
    number: Num,
    content: &'p Value,
) -> Result<Valued<'p>, Halt>
    requires { SoundValue (surround_of here.now) (Value.Variant ty.now number content.now) }
    ensures given { Gives value_in result (valued here.now.memory.now (surround_of here.now)
        (Value.Variant ty.now number content.now) (seen notes.old)) (seen notes.new) notes.new.refused }
    ensures ty { IfOk result
        (λ v. type_of_value here.now.locals.now (Value.Variant ty.now number content.now) ≡ Some (ty_of v.ty)) }
    ensures kept { Extends (seen notes.old) (seen notes.new) }
{
    let v = valued(here, notes, content)?;
    variant_value(here.alloc, ty, number, v.value)
}

// A union of which a field is written.
#[cycle(evaluated)]
#[tactic(auto, using(crate::proofs::EvalRuns::eval_laws, crate::proofs::SoundParts::sound_laws, crate::proofs::SoundParts::type_facts, crate::proofs::SoundParts::int_fits, mr_typing::proofs::TypeLaws::type_laws, crate::proofs::ExtendsLaws::extends_laws))]
fn union_expression<'p>(
    here: &Here<'p>,
    notes: &mut Notes,
    ty: &'p Ty,
    number: u64,
    content: &'p Value,
) -> Result<Valued<'p>, Halt>
    requires { SoundValue (surround_of here.now) (Value.Union ty.now number content.now) }
    ensures given { Gives value_in result (valued here.now.memory.now (surround_of here.now)
        (Value.Union ty.now number content.now) (seen notes.old)) (seen notes.new) notes.new.refused }
    ensures ty { IfOk result
        (λ v. type_of_value here.now.locals.now (Value.Union ty.now number content.now) ≡ Some (ty_of v.ty)) }
    ensures kept { Extends (seen notes.old) (seen notes.new) }
{
    let v = valued(here, notes, content)?;
    union_value(here.alloc, ty, number, v.value)
}

// A value of another type of the same bytes.
#[cycle(evaluated)]
#[tactic(auto, using(crate::proofs::EvalRuns::eval_laws, crate::proofs::SoundParts::sound_laws, crate::proofs::SoundParts::type_facts, crate::proofs::SoundParts::int_fits, mr_typing::proofs::TypeLaws::type_laws, crate::proofs::ExtendsLaws::extends_laws))]
fn transmute_expression<'p>(
    here: &Here<'p>,
    notes: &mut Notes,
    ty: &'p Ty,
    operand: &'p Value,
) -> Result<Valued<'p>, Halt>
    requires { SoundValue (surround_of here.now) (Value.Transmute ty.now operand.now) }
    ensures given { Gives value_in result (valued here.now.memory.now (surround_of here.now)
        (Value.Transmute ty.now operand.now) (seen notes.old)) (seen notes.new) notes.new.refused }
    ensures ty { IfOk result
        (λ v. type_of_value here.now.locals.now (Value.Transmute ty.now operand.now) ≡ Some (ty_of v.ty)) }
    ensures kept { Extends (seen notes.old) (seen notes.new) }
{
    let v = valued(here, notes, operand)?;
    transmuted_value(here, notes, ty, v)
}

// An operator with two operands, from left to right.
#[cycle(evaluated)]
#[tactic(auto, using(crate::proofs::EvalRuns::eval_laws, crate::proofs::SoundParts::sound_laws, crate::proofs::SoundParts::type_facts, crate::proofs::SoundParts::int_fits, mr_typing::proofs::TypeLaws::type_laws, crate::proofs::ExtendsLaws::extends_laws))]
fn binary_expression<'p>(
    here: &Here<'p>,
    notes: &mut Notes,
    op: BinaryOp,
    left: &'p Value,
    right: &'p Value,
) -> Result<Valued<'p>, Halt>
    requires { SoundValue (surround_of here.now) (Value.Binary op left.now right.now) }
    ensures given { Gives value_in result (valued here.now.memory.now (surround_of here.now)
        (Value.Binary op left.now right.now) (seen notes.old)) (seen notes.new) notes.new.refused }
    ensures ty { IfOk result
        (λ v. type_of_value here.now.locals.now (Value.Binary op left.now right.now) ≡ Some (ty_of v.ty)) }
    ensures kept { Extends (seen notes.old) (seen notes.new) }
{
    let a = valued(here, notes, left)?;
    let right = valued(here, notes, right);
    let (a, b) = beside(a, right)?;
    binary_value(here, notes, op, a, b)
}

// A thing beside an answer.
fn beside<T: Drop, U: Drop>(thing: T, answer: Result<U, Halt>) -> Result<(T, U), Halt>
    ensures { result ≡ beside_of thing answer }
{
    match answer {
        Ok(x) => Ok((thing, x)),
        Err(halt) => Err(halt),
    }
}

// The values of a row, from left to right.
#[cycle(evaluated)]
#[tactic(auto, using(crate::proofs::SoundParts::row_laws, crate::proofs::ExtendsLaws::extends_laws))]
fn each_valued<'p>(
    here: &Here<'p>,
    notes: &mut Notes,
    values: &'p [Value],
) -> Result<Items<Val>, Halt>
    requires { SoundValues (surround_of here.now) values.now }
    ensures given { Gives same result
        (each_valued here.now.memory.now (surround_of here.now) values.now (seen notes.old))
        (seen notes.new) notes.new.refused }
    ensures kept { Extends (seen notes.old) (seen notes.new) }
{
    let mut row = Items::new(here.alloc);
    for value in values {
        let v = valued(here, notes, value)?;
        row.push(v.value)?;
    }
    Ok(row)
}
