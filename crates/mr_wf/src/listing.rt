//! How the types of a function's locals and of their parts are listed.
ghost use Rattle.std.specs.Prelude.{◌≡◌, false, map, not, Some, IfOk, OnOk, IsTrue, option_copied};
ghost use Rattle.mr_ast.specs.declared.types.Num.{Num as NumModel};
ghost use Rattle.mr_layout.specs.Alike.{number_key, variant_key, number_twice};
ghost use Rattle.mr_typing.specs.Types.{variant_among, variant_type};
ghost use Rattle.mr_wf.specs.Listed.{AreClasses, AreListed, AreTypes, IsWhole, Lists, listed_at, type_from};

use crate::kinds::has_parts;
use crate::rows::row_of;
use mr_ast::{Local, Num, OutOfMemory, Ty, Variant};
use mr_base::{Pair, any_twice};
use mr_typing::{element, field};
use std::alloc::Global;
use std::collections::BTreeMap;

/// What a listed type is the type of. A whole is told by its position in the list.
#[derive(Clone, Copy, Debug, PartialEq, Eq)]
pub enum Origin {
    /// The local of this number.
    Local(usize),
    /// The whole, and the number of its field.
    Field(usize, u64),
    /// The array, whose elements are meant.
    Element(usize),
    /// The enum, and the number of its variant.
    Variant(usize, Num),
}

/// A type, and what it is the type of.
#[derive(Clone, Copy)]
pub struct Listed<'p> {
    pub ty: &'p Ty,
    pub origin: Origin,
}

/// The types of a function's locals and of their parts.
#[derive(Drop)]
pub struct Types<'p> {
    pub list: Vec<Listed<'p>>,
    /// Where the type of each origin is listed, in the order of keys. What is found by it is looked at before it is
    /// taken.
    pub keys: Vec<(Key, usize)>,
    /// A number for each type of the list, the same for equal types.
    pub classes: Vec<usize>,
}

/// By what an origin is found: the local or the whole, and the step from there.
pub type Key = (usize, Pair);

// The most types whose parts are listed. No text has as many.
const MOST_LISTED: usize = 1 << 20;

/// A number as a pair: 1 where a minus stands before it, and its magnitude.
pub fn key_of_number(number: Num) -> Pair
    ensures { result ≡ number_key number }
{
    (if number.neg { 1 } else { 0 }, number.mag)
}

/// The key of an origin. No two origins of one list have the same.
pub fn key_of(origin: Origin) -> Key {
    match origin {
        Origin::Local(n) => (n, (2, 0)),
        Origin::Field(whole, n) => (whole, (0, n as u128)),
        Origin::Element(whole) => (whole, (0, 0)),
        Origin::Variant(whole, number) => (whole, key_of_number(number)),
    }
}

/// The type at a position of the list.
pub fn listed_at<'p>(list: &[Listed<'p>], at: usize) -> Option<&'p Ty>
    ensures { option_copied result ≡ listed_at list.now at }
{
    match list.get(at) {
        Some(listed) => Some(listed.ty),
        None => None,
    }
}

// Lists a type.
#[tactic(auto, using(crate::proofs::ListedLaws::lists_one))]
fn list_type<'p>(
    list: &mut Vec<Listed<'p>>,
    locals: &[Local],
    ty: &'p Ty,
    origin: Origin,
) -> Result<(), OutOfMemory>
    requires listed { AreListed locals.now list.old.items }
    requires ty { type_from locals.now list.old.items origin ≡ Some ty.now }
    ensures { OnOk result (Lists locals.now list.old.items list.new.items) }
{
    list.push(Listed { ty, origin })?;
    Ok(())
}

// Lists a type if it has parts.
#[tactic(auto, using(crate::proofs::ListedLaws::lists_none))]
fn list_wide<'p>(
    list: &mut Vec<Listed<'p>>,
    locals: &[Local],
    ty: &'p Ty,
    origin: Origin,
) -> Result<(), OutOfMemory>
    requires listed { AreListed locals.now list.old.items }
    requires ty { type_from locals.now list.old.items origin ≡ Some ty.now }
    ensures { OnOk result (Lists locals.now list.old.items list.new.items) }
{
    if has_parts(ty) {
        return list_type(list, locals, ty, origin);
    }
    Ok(())
}

// Lists the types of the locals.
fn list_locals<'p>(list: &mut Vec<Listed<'p>>, locals: &'p [Local]) -> Result<(), OutOfMemory>
    requires { AreListed locals.now list.old.items }
    ensures { OnOk result (AreListed locals.now list.new.items) }
{
    for (n, local) in locals.iter().enumerate() {
        list_wide(list, locals, &local.ty, Origin::Local(n))?;
    }
    Ok(())
}

// Lists one of the fields of a whole, if there is one of this number.
fn list_field<'p>(
    list: &mut Vec<Listed<'p>>,
    locals: &[Local],
    whole: usize,
    t: &'p Ty,
    n: u64,
) -> Result<(), OutOfMemory>
    requires { IsWhole locals.now list.old.items whole t.now }
    ensures { OnOk result (IsWhole locals.now list.new.items whole t.now) }
{
    match field(t, n) {
        Some(ty) => list_wide(list, locals, ty, Origin::Field(whole, n)),
        None => Ok(()),
    }
}

// Lists the fields of a whole.
fn list_fields<'p>(
    list: &mut Vec<Listed<'p>>,
    locals: &[Local],
    whole: usize,
    t: &'p Ty,
    count: usize,
) -> Result<(), OutOfMemory>
    requires { IsWhole locals.now list.old.items whole t.now }
    ensures { OnOk result (AreListed locals.now list.new.items) }
{
    for n in 0..count {
        list_field(list, locals, whole, t, n as u64)?;
    }
    Ok(())
}

// Lists the elements of an array.
fn list_element<'p>(
    list: &mut Vec<Listed<'p>>,
    locals: &[Local],
    whole: usize,
    t: &'p Ty,
) -> Result<(), OutOfMemory>
    requires { IsWhole locals.now list.old.items whole t.now }
    ensures { OnOk result (AreListed locals.now list.new.items) }
{
    match element(t) {
        Some(ty) => list_wide(list, locals, ty, Origin::Element(whole)),
        None => Ok(()),
    }
}

// Whether no two variants have one number.
#[tactic(auto, using(mr_layout::proofs::AlikeLaws::number_twice_keys))]
fn are_apart(alloc: Global, variants: &[Variant]) -> Result<bool, OutOfMemory>
    ensures { IfOk result (λ apart. apart ≡ not (number_twice variants.now)) }
{
    match variant_keys(alloc, variants) {
        Ok(mut keys) => Ok(!any_twice(keys.as_mut_slice())),
        Err(error) => Err(error),
    }
}

fn variant_keys(alloc: Global, variants: &[Variant]) -> Result<Vec<Pair>, OutOfMemory>
    ensures { IfOk result (λ keys. keys.items ≡ map variant_key variants.now) }
{
    let mut keys = Vec::new(alloc);
    for variant in variants {
        keys.push(key_of_number(variant.number))?;
    }
    Ok(keys)
}

// Lists the variants of an enum, if no two have one number.
fn list_variants<'p>(
    alloc: Global,
    list: &mut Vec<Listed<'p>>,
    locals: &[Local],
    whole: usize,
    t: &'p Ty,
    variants: &'p [Variant],
) -> Result<(), OutOfMemory>
    requires whole { IsWhole locals.now list.old.items whole t.now }
    requires variants { (n : NumModel) → variant_type t.now n ≡ variant_among variants.now n }
    ensures { OnOk result (AreListed locals.now list.new.items) }
{
    if are_apart(alloc, variants)? {
        return list_apart(list, locals, whole, t, variants);
    }
    Ok(())
}

// The same where no two have one number.
fn list_apart<'p>(
    list: &mut Vec<Listed<'p>>,
    locals: &[Local],
    whole: usize,
    t: &'p Ty,
    variants: &'p [Variant],
) -> Result<(), OutOfMemory>
    requires whole { IsWhole locals.now list.old.items whole t.now }
    requires variants { (n : NumModel) → variant_type t.now n ≡ variant_among variants.now n }
    requires apart { number_twice variants.now ≡ false }
    ensures { OnOk result (AreListed locals.now list.new.items) }
{
    for variant in variants {
        list_type(
            list,
            locals,
            &variant.ty,
            Origin::Variant(whole, variant.number),
        )?;
    }
    Ok(())
}

// Lists the parts of a listed type.
fn list_parts<'p>(
    alloc: Global,
    list: &mut Vec<Listed<'p>>,
    locals: &[Local],
    whole: usize,
    t: &'p Ty,
) -> Result<(), OutOfMemory>
    requires { IsWhole locals.now list.old.items whole t.now }
    ensures { OnOk result (AreListed locals.now list.new.items) }
{
    match t {
        Ty::Tuple { fields, .. } | Ty::Union { fields, .. } => {
            list_fields(list, locals, whole, t, fields.len())
        }
        Ty::Array { .. } => list_element(list, locals, whole, t),
        Ty::Enum { variants, .. } => {
            list_variants(alloc, list, locals, whole, t, variants.as_slice())
        }
        Ty::Int(_) | Ty::Bool | Ty::Raw | Ty::FnPtr | Ty::Ref { .. } => Ok(()),
    }
}

// Lists the types of some locals and their parts.
#[tactic(auto, using(crate::proofs::ListedLaws::listed_none))]
fn listed_types<'p>(alloc: Global, locals: &'p [Local]) -> Result<Vec<Listed<'p>>, OutOfMemory>
    ensures { IfOk result (λ list. AreListed locals.now list.items) }
{
    let mut list = Vec::new(alloc);
    list_locals(&mut list, locals)?;
    for whole in 0..MOST_LISTED {
        match listed_at(list.as_slice(), whole) {
            Some(t) => list_parts(alloc, &mut list, locals, whole, t)?,
            None => return Ok(list),
        }
    }
    Ok(list)
}

// Where the type of each origin is listed, in the order of keys.
fn sorted_keys(alloc: Global, list: &[Listed<'_>]) -> Result<Vec<(Key, usize)>, OutOfMemory> {
    let mut keys = Vec::new(alloc);
    for (at, listed) in list.iter().enumerate() {
        keys.push((key_of(listed.origin), at))?;
    }
    keys.sort_unstable();
    Ok(keys)
}

// Each type alone: its own position is its number.
fn single_classes(alloc: Global, list: &[Listed<'_>]) -> Result<Vec<usize>, OutOfMemory>
    ensures { IfOk result (λ classes. AreClasses list.now classes.items) }
{
    let mut classes = Vec::new(alloc);
    for at in 0..list.len() {
        classes.push(at)?;
    }
    Ok(classes)
}

// Whether equal types are listed at two positions.
fn are_equal(list: &[Listed<'_>], at: usize, other: usize) -> bool
    ensures { IsTrue result → (listed_at list.now at ≡ listed_at list.now other) }
{
    match (listed_at(list, at), listed_at(list, other)) {
        (Some(t), Some(u)) => t.same(u),
        _ => false,
    }
}

// Gives a type the number of another one, if it is equal to it.
fn join(list: &[Listed<'_>], classes: &mut Vec<usize>, other: usize, at: usize)
    requires { AreClasses list.now classes.old.items }
    ensures { AreClasses list.now classes.new.items }
{
    if at != other && at < classes.len() && other < classes.len() && are_equal(list, at, other) {
        let class = classes[other];
        classes[at] = class;
    }
}

// Where the first part of each type is listed, as long as none is known: behind the list.
fn unknown_firsts(alloc: Global, list: &[Listed<'_>]) -> Result<Vec<usize>, OutOfMemory> {
    let mut firsts = Vec::new(alloc);
    for _ in 0..list.len() {
        firsts.push(list.len())?;
    }
    Ok(firsts)
}

// Notes that a part is listed, in front of the others of its whole that were noted.
fn note_part(firsts: &mut Vec<usize>, at: usize, origin: Origin) {
    match origin {
        Origin::Field(whole, _) | Origin::Element(whole) | Origin::Variant(whole, _) => {
            if whole < firsts.len() {
                firsts[whole] = at;
            }
        }
        Origin::Local(_) => {}
    }
}

// The classes of the listed parts of a type, and of what is listed behind them.
fn classes_behind<'c>(classes: &'c [usize], firsts: &[usize], at: usize) -> &'c [usize] {
    match firsts.get(at) {
        Some(first) if *first <= classes.len() => &classes[*first..],
        _ => &[],
    }
}

// Where a type of this row is listed: at this position, if there was none.
fn same_row(
    rows: &mut BTreeMap<Vec<u128>, usize>,
    row: Vec<u128>,
    at: usize,
) -> Result<usize, OutOfMemory> {
    if let Some(other) = rows.get(row.as_slice()) {
        return Ok(*other);
    }
    rows.insert(row, at)?;
    Ok(at)
}

// The number of each listed type: equal types have one number. The last is numbered first, for the parts of a type
// are listed behind it.
fn classes_of(alloc: Global, list: &[Listed<'_>]) -> Result<Vec<usize>, OutOfMemory>
    ensures { IfOk result (λ classes. AreClasses list.now classes.items) }
{
    let mut classes = single_classes(alloc, list)?;
    let mut firsts = unknown_firsts(alloc, list)?;
    let mut rows = BTreeMap::new(alloc);
    for at in (0..list.len()).rev() {
        let listed = list[at];
        let parts = classes_behind(classes.as_slice(), firsts.as_slice(), at);
        let row = row_of(alloc, listed.ty, parts)?;
        let other = same_row(&mut rows, row, at)?;
        join(list, &mut classes, other, at);
        note_part(&mut firsts, at, listed.origin);
    }
    Ok(classes)
}

/// No types.
#[tactic(auto, using(crate::proofs::ListedLaws::listed_none, crate::proofs::ListedLaws::classes_none))]
pub fn no_types(alloc: Global, locals: &[Local]) -> Types<'_>
    ensures { AreTypes locals.now result }
{
    Types {
        list: Vec::new(alloc),
        keys: Vec::new(alloc),
        classes: Vec::new(alloc),
    }
}

/// The types of some locals and of their parts.
pub fn types_of<'p>(alloc: Global, locals: &'p [Local]) -> Result<Types<'p>, OutOfMemory>
    ensures { IfOk result (λ types. AreTypes locals.now types) }
{
    let list = listed_types(alloc, locals)?;
    let keys = sorted_keys(alloc, list.as_slice())?;
    let classes = classes_of(alloc, list.as_slice())?;
    Ok(Types {
        list,
        keys,
        classes,
    })
}
