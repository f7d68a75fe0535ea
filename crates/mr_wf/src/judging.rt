//! The types of places and values, or the first rule that is broken in them.
ghost use Rattle.std.specs.Prelude.{◌≡◌, ◌||◌, map, option_copied};
ghost use Rattle.mr_ast.specs.declared.rule.Rule.TheVariants as form;
ghost use Rattle.mr_ast.specs.declared.expr.Place.TheVariants as place;
ghost use Rattle.mr_ast.specs.declared.expr.Value.TheVariants as value;
ghost use Rattle.mr_typing.specs.Judging.{judged_place, judged_position, judged_value, judged_values, kept, sound_type, there};
ghost use Rattle.mr_typing.specs.Known.{ty_of};
ghost use Rattle.mr_typing.specs.Operands.{is_raw, is_ref};
ghost use Rattle.mr_typing.specs.Types.{discriminant_type, result_type};
ghost use Rattle.mr_wf.specs.Gives.{Gives, GivesWhereTyped, element_at, operated, surroundings_of};

use crate::fault::Broken;
use crate::globals::is_in_global;
use crate::listed::TypeList;
use crate::operands::{fits_binary, fits_parts, fits_unary, fits_union, fits_variant, same_size};
use mr_ast::{BinaryOp, GlobalName, IntType, Num, Place, Rule, Ty, UnaryOp, Value};
use mr_layout::{first_broken_rule, is_fitting};
use mr_typing::{Known, discriminant, element, field, local_type, variant};
use std::alloc::Global;

/// What an expression may speak of: the globals of its program, of which the sizes count, and the locals of its
/// function with their types.
#[derive(Clone, Copy)]
pub struct Surroundings<'p> {
    pub sizes: &'p [u128],
    pub listed: &'p TypeList<'p>,
}

/// A rule that is kept where a test holds.
pub fn kept(rule: Rule, test: bool) -> Result<(), Broken>
    ensures { Gives (λ u. u) result (kept rule test) }
{
    if test {
        Ok(())
    } else {
        Err(Broken::Rule(rule))
    }
}

/// The rules of a written type.
pub fn sound_type(alloc: Global, t: &Ty) -> Result<(), Broken>
    ensures { Gives (λ u. u) result (sound_type t.now) }
{
    match first_broken_rule(alloc, t) {
        Some(rule) => Err(Broken::Rule(rule)),
        None => Ok(()),
    }
}

// What must be there, by this rule.
fn there(rule: Rule, found: Option<&Ty>) -> Result<&Ty, Broken>
    ensures { Gives (λ t. t.now) result (there rule (option_copied found.entry)) }
{
    found.ok_or(Broken::Rule(rule))
}

/// The type of a place, or the first rule that is broken in it.
#[cycle(judged)]
#[tactic(auto, using(mr_typing::proofs::JudgedLaws::judged_laws))]
pub fn judged_place<'p>(
    alloc: Global,
    at: Surroundings<'p>,
    place: &'p Place,
) -> Result<&'p Ty, Broken>
    ensures { Gives (λ t. t.now) result (judged_place (surroundings_of at.entry) place.now) }
{
    match place {
        Place::Local(x) => there(Rule::Place, local_type(at.listed.locals(), *x)),
        Place::Deref(pointer, ty) => judged_target(alloc, at, pointer.get(), ty),
        Place::Field(whole, number) => judged_field(alloc, at, whole.get(), *number),
        Place::Index(array, index) => {
            let t = judged_place(alloc, at, array.get())?;
            let i = judged_value(alloc, at, index.get())?;
            element_at(t, i)
        }
        Place::Variant(whole, number) => judged_part(alloc, at, whole.get(), *number),
    }
}

// The target of a pointer.
#[cycle(judged)]
#[tactic(auto, using(mr_typing::proofs::JudgedLaws::judged_laws))]
fn judged_target<'p>(
    alloc: Global,
    at: Surroundings<'p>,
    pointer: &'p Value,
    ty: &'p Ty,
) -> Result<&'p Ty, Broken>
    ensures { Gives (λ t. t.now) result (judged_place (surroundings_of at.entry) (place.Deref pointer.now ty.now)) }
{
    let t = judged_value(alloc, at, pointer)?;
    sound_type(alloc, ty)?;
    kept(Rule::Place, t.is_pointer())?;
    Ok(ty)
}

// A field of a whole.
#[cycle(judged)]
#[tactic(auto, using(mr_typing::proofs::JudgedLaws::judged_laws))]
fn judged_field<'p>(
    alloc: Global,
    at: Surroundings<'p>,
    whole: &'p Place,
    number: u64,
) -> Result<&'p Ty, Broken>
    ensures { Gives (λ t. t.now) result (judged_place (surroundings_of at.entry) (place.Field whole.now number)) }
{
    there(Rule::Place, field(judged_place(alloc, at, whole)?, number))
}

// A variant of a whole.
#[cycle(judged)]
#[tactic(auto, using(mr_typing::proofs::JudgedLaws::judged_laws, crate::proofs::PositionLaws::part_laws))]
fn judged_part<'p>(
    alloc: Global,
    at: Surroundings<'p>,
    whole: &'p Place,
    number: Num,
) -> Result<&'p Ty, Broken>
    ensures { Gives (λ t. t.now) result (judged_place (surroundings_of at.entry) (place.Variant whole.now number)) }
{
    match at.listed.variant(whole, number) {
        Some(t) => {
            judged_positions(alloc, at, whole)?;
            Ok(t)
        }
        None => there(
            Rule::Place,
            variant(judged_place(alloc, at, whole)?, number),
        ),
    }
}

// What may be wrong with a place that has a type: the positions in its arrays, and what it is behind.
#[cycle(judged)]
#[tactic(auto, using(crate::proofs::PositionLaws::given_laws))]
fn judged_positions<'p>(alloc: Global, at: Surroundings<'p>, place: &'p Place) -> Result<(), Broken>
    ensures { GivesWhereTyped (surroundings_of at.entry) result place.now }
{
    match place {
        Place::Local(_) => Ok(()),
        Place::Deref(pointer, ty) => {
            judged_target(alloc, at, pointer.get(), ty)?;
            Ok(())
        }
        Place::Field(whole, _) => judged_positions(alloc, at, whole.get()),
        Place::Index(array, index) => {
            judged_positions(alloc, at, array.get())?;
            judged_position(alloc, at, index.get())
        }
        Place::Variant(whole, _) => judged_positions(alloc, at, whole.get()),
    }
}

// A position in an array.
#[cycle(judged)]
fn judged_position<'p>(alloc: Global, at: Surroundings<'p>, index: &'p Value) -> Result<(), Broken>
    ensures { Gives (λ u. u) result (judged_position (surroundings_of at.entry) index.now) }
{
    let i = judged_value(alloc, at, index)?;
    kept(Rule::Place, i.same(Known::Int(IntType::U64)))
}

// The type of an element of an array.
fn element_at<'p>(t: &'p Ty, index: Known<'p>) -> Result<&'p Ty, Broken>
    ensures { Gives (λ t. t.now) result (element_at t.now (ty_of index.entry)) }
{
    let elem = there(Rule::Place, element(t))?;
    kept(Rule::Place, index.same(Known::Int(IntType::U64)))?;
    Ok(elem)
}

/// The type of a value, or the first rule that is broken in it.
#[cycle(judged)]
#[tactic(auto, using(mr_typing::proofs::JudgedLaws::judged_laws))]
pub fn judged_value<'p>(
    alloc: Global,
    at: Surroundings<'p>,
    value: &'p Value,
) -> Result<Known<'p>, Broken>
    ensures { Gives ty_of result (judged_value (surroundings_of at.entry) value.now) }
{
    match value {
        Value::Int(int, number) => judged_number(at, *int, *number),
        Value::True | Value::False => Ok(Known::Bool),
        Value::Raw(_) => Ok(Known::Raw),
        Value::Fn(_) => Ok(Known::FnPtr),
        Value::Global(g, offset) => judged_pointer(at, *g, *offset),
        Value::Tuple(ty, values) => judged_tuple(alloc, at, values.as_slice(), ty),
        Value::Union(ty, number, content) => judged_union(alloc, at, content.get(), ty, *number),
        Value::Variant(ty, number, content) => {
            judged_variant(alloc, at, content.get(), ty, *number)
        }
        Value::Load(place) => judged_load(alloc, at, place),
        Value::Disc(place) => judged_discriminant(alloc, at, place),
        Value::AddrOf(ty, place) => judged_address(alloc, at, place, ty),
        Value::Cast(int, operand) => judged_cast(alloc, at, *int, operand.get()),
        Value::Transmute(ty, operand) => judged_transmute(alloc, at, operand.get(), ty),
        Value::Unary(op, operand) => judged_unary(alloc, at, *op, operand.get()),
        Value::Binary(op, left, right) => {
            let l = judged_value(alloc, at, left.get())?;
            let r = judged_value(alloc, at, right.get())?;
            operated(*op, l, r)
        }
    }
}

#[tactic(auto, using(mr_typing::proofs::JudgedLaws::judged_laws))]
fn judged_number<'p>(at: Surroundings<'p>, int: IntType, number: Num) -> Result<Known<'p>, Broken>
    ensures { Gives ty_of result (judged_value (surroundings_of at.entry) (value.Int int number)) }
{
    kept(Rule::ConstRange, is_fitting(int, number))?;
    Ok(Known::Int(int))
}

// A pointer into a global.
#[tactic(auto, using(mr_typing::proofs::JudgedLaws::judged_laws))]
fn judged_pointer<'p>(at: Surroundings<'p>, g: GlobalName, offset: u64) -> Result<Known<'p>, Broken>
    ensures { Gives ty_of result (judged_value (surroundings_of at.entry) (value.Global g offset)) }
{
    kept(Rule::GlobalRef, is_in_global(at.sizes, g, offset))?;
    Ok(Known::Raw)
}

// A value that is loaded from a place.
#[cycle(judged)]
#[tactic(auto, using(mr_typing::proofs::JudgedLaws::judged_laws))]
fn judged_load<'p>(
    alloc: Global,
    at: Surroundings<'p>,
    place: &'p Place,
) -> Result<Known<'p>, Broken>
    ensures { Gives ty_of result (judged_value (surroundings_of at.entry) (value.Load place.now)) }
{
    Ok(Known::Written(judged_place(alloc, at, place)?))
}

// The discriminant of the enum at a place.
#[cycle(judged)]
#[tactic(auto, using(mr_typing::proofs::JudgedLaws::judged_laws))]
fn judged_discriminant<'p>(
    alloc: Global,
    at: Surroundings<'p>,
    place: &'p Place,
) -> Result<Known<'p>, Broken>
    ensures { Gives ty_of result (judged_value (surroundings_of at.entry) (value.Disc place.now)) }
{
    discriminant_of(judged_place(alloc, at, place)?)
}

// The type of the discriminant of an enum.
fn discriminant_of<'p>(t: &Ty) -> Result<Known<'p>, Broken>
    ensures { Gives ty_of result (there form.Discriminant (discriminant_type t.now)) }
{
    match discriminant(t) {
        Some(int) => Ok(Known::Int(int)),
        None => Err(Broken::Rule(Rule::Discriminant)),
    }
}

// A cast to an integer.
#[cycle(judged)]
#[tactic(auto, using(mr_typing::proofs::JudgedLaws::judged_laws))]
fn judged_cast<'p>(
    alloc: Global,
    at: Surroundings<'p>,
    int: IntType,
    operand: &'p Value,
) -> Result<Known<'p>, Broken>
    ensures { Gives ty_of result (judged_value (surroundings_of at.entry) (value.Cast int operand.now)) }
{
    let t = judged_value(alloc, at, operand)?;
    kept(Rule::Cast, t.is_scalar_number())?;
    Ok(Known::Int(int))
}

// A value of an operator with one operand.
#[cycle(judged)]
#[tactic(auto, using(mr_typing::proofs::JudgedLaws::judged_laws))]
fn judged_unary<'p>(
    alloc: Global,
    at: Surroundings<'p>,
    op: UnaryOp,
    operand: &'p Value,
) -> Result<Known<'p>, Broken>
    ensures { Gives ty_of result (judged_value (surroundings_of at.entry) (value.Unary op operand.now)) }
{
    let t = judged_value(alloc, at, operand)?;
    kept(Rule::Operand, fits_unary(op, t))?;
    Ok(t)
}

// What an operator gives on operands of these types.
fn operated<'p>(op: BinaryOp, left: Known<'p>, right: Known<'p>) -> Result<Known<'p>, Broken>
    ensures { Gives ty_of result (operated op (ty_of left.entry) (ty_of right.entry)) }
{
    kept(Rule::Operand, fits_binary(op, left, right))?;
    result_type(op, left)
}

// A tuple or an array.
#[cycle(judged)]
#[tactic(auto, using(mr_typing::proofs::JudgedLaws::judged_laws))]
fn judged_tuple<'p>(
    alloc: Global,
    at: Surroundings<'p>,
    values: &'p [Value],
    ty: &'p Ty,
) -> Result<Known<'p>, Broken>
    ensures { Gives ty_of result (judged_value (surroundings_of at.entry) (value.Tuple ty.now values.now)) }
{
    sound_type(alloc, ty)?;
    let types = judged_values(alloc, at, values)?;
    kept(
        Rule::Aggregate,
        fits_parts(at, values, ty, types.as_slice()),
    )?;
    Ok(Known::Written(ty))
}

// A union, of which one field is given.
#[cycle(judged)]
#[tactic(auto, using(mr_typing::proofs::JudgedLaws::judged_laws))]
fn judged_union<'p>(
    alloc: Global,
    at: Surroundings<'p>,
    content: &'p Value,
    ty: &'p Ty,
    number: u64,
) -> Result<Known<'p>, Broken>
    ensures { Gives ty_of result (judged_value (surroundings_of at.entry) (value.Union ty.now number content.now)) }
{
    sound_type(alloc, ty)?;
    let t = judged_value(alloc, at, content)?;
    kept(Rule::Aggregate, fits_union(ty, number, t))?;
    Ok(Known::Written(ty))
}

// A variant of an enum.
#[cycle(judged)]
#[tactic(auto, using(mr_typing::proofs::JudgedLaws::judged_laws))]
fn judged_variant<'p>(
    alloc: Global,
    at: Surroundings<'p>,
    content: &'p Value,
    ty: &'p Ty,
    number: Num,
) -> Result<Known<'p>, Broken>
    ensures { Gives ty_of result (judged_value (surroundings_of at.entry) (value.Variant ty.now number content.now)) }
{
    sound_type(alloc, ty)?;
    let t = judged_value(alloc, at, content)?;
    kept(Rule::Aggregate, fits_variant(ty, number, t))?;
    Ok(Known::Written(ty))
}

// The address of a place.
#[cycle(judged)]
#[tactic(auto, using(mr_typing::proofs::JudgedLaws::judged_laws))]
fn judged_address<'p>(
    alloc: Global,
    at: Surroundings<'p>,
    place: &'p Place,
    ty: &'p Ty,
) -> Result<Known<'p>, Broken>
    ensures { Gives ty_of result (judged_value (surroundings_of at.entry) (value.AddrOf ty.now place.now)) }
{
    sound_type(alloc, ty)?;
    judged_place(alloc, at, place)?;
    kept(Rule::Cast, is_address(ty))?;
    Ok(Known::Written(ty))
}

// The bytes of a value, taken for another type.
#[cycle(judged)]
#[tactic(auto, using(mr_typing::proofs::JudgedLaws::judged_laws, crate::proofs::SoundTypes::sound_ok))]
fn judged_transmute<'p>(
    alloc: Global,
    at: Surroundings<'p>,
    operand: &'p Value,
    ty: &'p Ty,
) -> Result<Known<'p>, Broken>
    ensures { Gives ty_of result (judged_value (surroundings_of at.entry) (value.Transmute ty.now operand.now)) }
{
    sound_type(alloc, ty)?;
    let t = judged_value(alloc, at, operand)?;
    kept(Rule::Cast, same_size(ty, t))?;
    Ok(Known::Written(ty))
}

// Whether an address may have this type.
fn is_address(t: &Ty) -> bool
    ensures { result ≡ (is_raw t.now || is_ref t.now) }
{
    matches!(t, Ty::Raw | Ty::Ref { .. })
}

/// The types of some values.
#[cycle(judged)]
pub fn judged_values<'p>(
    alloc: Global,
    at: Surroundings<'p>,
    values: &'p [Value],
) -> Result<Vec<Known<'p>>, Broken>
    ensures { Gives (λ ts. map ty_of ts.items) result (judged_values (surroundings_of at.entry) values.now) }
{
    let mut types = Vec::new(alloc);
    for value in values {
        let t = judged_value(alloc, at, value)?;
        types.push(t)?;
    }
    Ok(types)
}

// What an operator gives, from its left operand.
fn result_type<'p>(op: BinaryOp, left: Known<'p>) -> Result<Known<'p>, Broken>
    ensures { Gives ty_of result (there form.Operand (result_type op (ty_of left.entry))) }
{
    match left.under(op) {
        Some(t) => Ok(t),
        None => Err(Broken::Rule(Rule::Operand)),
    }
}
