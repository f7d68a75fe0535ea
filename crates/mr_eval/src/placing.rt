//! Places and their parts.
ghost use Rattle.std.specs.Prelude.{◌≡◌, ◌*◌, ◌<◌, ◌^◌, IfOk, Some, is_some, length, option_map, slice_get, true};
ghost use Rattle.mr_layout.specs.TypeOk.{TypeOk};
ghost use Rattle.mr_value.specs.declared.val.Val.{out-Val};
ghost use Rattle.mr_base.specs.Script.{run};
ghost use Rattle.mr_eval.specs.Reads.{reading};
ghost use Rattle.mr_eval.specs.Answers.{Extends, Gives, Says, at_pointer, same, seen};
ghost use Rattle.mr_eval.specs.Evaluated.{in_array, in_field};
ghost use Rattle.mr_eval.specs.Evaluation.{element_at, elements_in, stored};
ghost use Rattle.mr_eval.specs.Operators.{index_in, pointer_of_value};
ghost use Rattle.mr_typing.specs.Types.{element_type, field_type, variant_type};

use crate::halt::Halt;
use crate::moving::moved;
use crate::notes::Notes;
use crate::operands::pointer_in;
use mr_ast::{Local, LocalName, Num, Ty};
use mr_base::{Pointer, Reason};
use mr_layout::Cache;
use mr_mem::Memory;
use mr_value::Val;

/// A place that was evaluated: where it begins, and its type.
#[derive(Clone, Copy)]
pub struct Placed<'p> {
    pub at: Pointer,
    pub ty: &'p Ty,
}

/// The storage of a local.
pub fn local<'p>(
    locals: &'p [Local],
    storage: &[Option<Pointer>],
    x: LocalName,
) -> Result<Placed<'p>, Halt>
    requires { length storage.now ≡ length locals.now }
    ensures given { Says at_pointer result (stored (slice_get storage.now x.0)) }
    ensures ty { IfOk result (λ p. option_map (λ l. l.ty) (slice_get locals.now x.0) ≡ Some p.ty.now) }
{
    match (storage.get(x.0 as usize), mr_typing::local_type(locals, x)) {
        (Some(Some(at)), Some(ty)) => Ok(Placed { at: *at, ty }),
        (Some(None), _) => Err(Halt::Undefined(Reason::DeadLocal)),
        _ => Err(Halt::IllFormed),
    }
}

// The pointer that a value is.
fn pointer_of(v: &Val) -> Result<Pointer, Halt>
    ensures { Says same result (pointer_of_value v.now) }
{
    pointer_in(v).ok_or(Halt::IllFormed)
}

/// The target of a pointer.
pub fn target<'p>(pointer: Val, ty: &'p Ty) -> Result<Placed<'p>, Halt>
    ensures given { Says at_pointer result (pointer_of_value pointer) }
    ensures ty { IfOk result (λ p. p.ty.now ≡ ty.entry.now) }
{
    match pointer_of(&pointer) {
        Ok(at) => Ok(Placed { at, ty }),
        Err(halt) => Err(halt),
    }
}

// The position that an index tells.
fn index_of(v: &Val) -> Option<u64>
    ensures { result ≡ index_in (out-Val v.now) }
{
    match v {
        Val::Int(bits) if *bits < 1 << 64 => Some(*bits as u64),
        _ => None,
    }
}

/// A field of a whole.
#[tactic(auto, unfolding(crate::specs::Evaluated::in_field), using(crate::proofs::ExtendsLaws::extends_laws))]
pub fn field<'p>(
    m: &Memory,
    notes: &mut Notes,
    whole: Placed<'p>,
    number: u64,
) -> Result<Placed<'p>, Halt>
    ensures given { Gives at_pointer result
        (in_field m.now (Some whole.entry.ty.now) number whole.entry.at (seen notes.old))
        (seen notes.new) notes.new.refused }
    ensures ty { IfOk result (λ p. field_type whole.entry.ty.now number ≡ Some p.ty.now) }
    ensures kept { Extends (seen notes.old) (seen notes.new) }
{
    match (
        mr_typing::offset(whole.ty, number),
        mr_typing::field(whole.ty, number),
    ) {
        (Some(offset), Some(ty)) => {
            let at = moved(m, notes, whole.at, i128::from(offset))?;
            Ok(Placed { at, ty })
        }
        _ => Err(Halt::IllFormed),
    }
}

/// The same bytes as a variant.
pub fn variant<'p>(whole: Placed<'p>, number: Num) -> Placed<'p>
    requires { is_some (variant_type whole.ty.now number) ≡ true }
    ensures at { result.at ≡ whole.entry.at }
    ensures ty { variant_type whole.entry.ty.now number ≡ Some result.ty.now }
{
    match mr_typing::variant(whole.ty, number) {
        Some(ty) => Placed { at: whole.at, ty },
        None => unreachable!(),
    }
}

// How many elements an array has, and how many bytes each.
#[tactic(auto, using(mr_layout::proofs::PartsOk::array_part))]
fn elements(c: &Cache, t: &Ty) -> Option<(u64, u64)>
    requires { TypeOk t.now }
    ensures { result ≡ elements_in (Some t.now) }
{
    match t {
        Ty::Array { count, elem } => Some((*count, c.layout(elem.get()).size)),
        _ => None,
    }
}

// The element at a position.
#[tactic(auto, using(crate::proofs::ExtendsLaws::extends_laws))]
fn element_of(
    m: &Memory,
    notes: &mut Notes,
    at: Pointer,
    index: u64,
    elements: (u64, u64),
) -> Result<Pointer, Halt>
    requires { elements.0 * elements.1 < 2 ^ 63 }
    ensures given { Gives same result (run (reading m.now) (element_at at index elements) (seen notes.old))
        (seen notes.new) notes.new.refused }
    ensures kept { Extends (seen notes.old) (seen notes.new) }
{
    if index < elements.0 {
        moved(m, notes, at, i128::from(index * elements.1))
    } else {
        Err(Halt::Undefined(Reason::IndexOutOfRange))
    }
}

/// An element of an array.
#[tactic(auto, unfolding(crate::specs::Evaluated::in_array), using(crate::proofs::ExtendsLaws::extends_laws, crate::proofs::PartTypes::elements_small))]
pub fn element<'p>(
    c: &Cache,
    m: &Memory,
    notes: &mut Notes,
    array: Placed<'p>,
    index: &Val,
) -> Result<Placed<'p>, Halt>
    requires { TypeOk array.ty.now }
    ensures given { Gives at_pointer result
        (in_array m.now (Some array.entry.ty.now) index.now array.entry.at (seen notes.old))
        (seen notes.new) notes.new.refused }
    ensures ty { IfOk result (λ p. element_type array.entry.ty.now ≡ Some p.ty.now) }
    ensures kept { Extends (seen notes.old) (seen notes.new) }
{
    match (
        index_of(index),
        elements(c, array.ty),
        mr_typing::element(array.ty),
    ) {
        (Some(i), Some(all), Some(ty)) => {
            let at = element_of(m, notes, array.at, i, all)?;
            Ok(Placed { at, ty })
        }
        _ => Err(Halt::IllFormed),
    }
}

/// An element of an array, at the position that a value tells.
pub fn element_by<'p>(
    c: &Cache,
    m: &Memory,
    notes: &mut Notes,
    array: Placed<'p>,
    index: Val,
) -> Result<Placed<'p>, Halt>
    requires { TypeOk array.ty.now }
    ensures given { Gives at_pointer result
        (in_array m.now (Some array.entry.ty.now) index array.entry.at (seen notes.old))
        (seen notes.new) notes.new.refused }
    ensures ty { IfOk result (λ p. element_type array.entry.ty.now ≡ Some p.ty.now) }
    ensures kept { Extends (seen notes.old) (seen notes.new) }
{
    element(c, m, notes, array, &index)
}
