//! The references in a value, and the range checks of what they point to.
ghost use Rattle.std.specs.Prelude.{◌≡◌, ◌++◌, OnOk};
ghost use Rattle.mr_value.specs.declared.val.Val.{out-Val};
ghost use Rattle.mr_eval.specs.Answers.{Extends, Gives, same, seen};
ghost use Rattle.mr_eval.specs.Evaluated.{referred_to};
ghost use Rattle.mr_eval.specs.Typed.{element_targets, in_parts, in_variant, pointed, targets_of, targets_of_fields, targets_of_variant};

use crate::halt::Halt;
use crate::notes::Notes;
use crate::reads::refer;
use mr_ast::{Num, Ty, Variant};
use mr_base::{OutOfMemory, Pointer};
use mr_mem::Memory;
use mr_value::Val;

// Adds the target of a reference.
fn add_target(size: u64, v: &Val, found: &mut Vec<(Pointer, u64)>) -> Result<(), OutOfMemory>
    ensures { OnOk result (found.new.items ≡ found.old.items ++ pointed size (out-Val v.now)) }
{
    if let Val::Ptr(p) = v {
        found.push((*p, size))?;
    }
    Ok(())
}

/// Adds what the references in a value of a type point to, in order.
#[cycle(targets)]
#[tactic(auto, using(crate::proofs::TargetLaws::target_laws))]
pub fn add_targets(t: &Ty, v: &Val, found: &mut Vec<(Pointer, u64)>) -> Result<(), OutOfMemory>
    ensures { OnOk result (found.new.items ≡ found.old.items ++ targets_of t.now v.now) }
{
    match t {
        Ty::Int(_) => Ok(()),
        Ty::Bool => Ok(()),
        Ty::Raw => Ok(()),
        Ty::FnPtr => Ok(()),
        Ty::Union { .. } => Ok(()),
        Ty::Ref { size, .. } => add_target(*size, v, found),
        Ty::Tuple { fields, .. } => add_parts(fields.as_slice(), v, found),
        Ty::Array { elem, .. } => add_elements(elem.get(), v, found),
        Ty::Enum { variants, .. } => add_content(variants.as_slice(), v, found),
    }
}

// Adds those of the fields of a tuple.
#[cycle(targets)]
fn add_parts(
    fields: &[(u64, Ty)],
    v: &Val,
    found: &mut Vec<(Pointer, u64)>,
) -> Result<(), OutOfMemory>
    ensures { OnOk result
        (found.new.items ≡ found.old.items ++ in_parts (targets_of_fields fields.now) (out-Val v.now)) }
{
    match v {
        Val::Tuple(values) => add_fields(fields, values.as_slice(), found),
        _ => Ok(()),
    }
}

#[cycle(targets)]
#[tactic(auto, using(crate::proofs::TargetLaws::field_ends))]
fn add_fields(
    fields: &[(u64, Ty)],
    values: &[Val],
    found: &mut Vec<(Pointer, u64)>,
) -> Result<(), OutOfMemory>
    ensures { OnOk result (found.new.items ≡ found.old.items ++ targets_of_fields fields.now values.now) }
{
    for i in 0..fields.len() {
        if i >= values.len() {
            return Ok(());
        }
        add_targets(&fields[i].1, &values[i], found)?;
    }
    Ok(())
}

// Adds those of the elements of an array.
#[cycle(targets)]
fn add_elements(elem: &Ty, v: &Val, found: &mut Vec<(Pointer, u64)>) -> Result<(), OutOfMemory>
    ensures { OnOk result
        (found.new.items ≡ found.old.items ++ in_parts (element_targets (targets_of elem.now)) (out-Val v.now)) }
{
    match v {
        Val::Tuple(values) => add_each(elem, values.as_slice(), found),
        _ => Ok(()),
    }
}

#[cycle(targets)]
fn add_each(elem: &Ty, values: &[Val], found: &mut Vec<(Pointer, u64)>) -> Result<(), OutOfMemory>
    ensures { OnOk result (found.new.items ≡ found.old.items ++ element_targets (targets_of elem.now) values.now) }
{
    for value in values {
        add_targets(elem, value, found)?;
    }
    Ok(())
}

// Adds those of the content of a variant.
#[cycle(targets)]
fn add_content(
    variants: &[Variant],
    v: &Val,
    found: &mut Vec<(Pointer, u64)>,
) -> Result<(), OutOfMemory>
    ensures { OnOk result
        (found.new.items ≡ found.old.items ++ in_variant (targets_of_variant variants.now) (out-Val v.now)) }
{
    match v {
        Val::Variant(number, content) => add_variant(variants, *number, content.get(), found),
        _ => Ok(()),
    }
}

#[cycle(targets)]
fn add_variant(
    variants: &[Variant],
    number: Num,
    content: &Val,
    found: &mut Vec<(Pointer, u64)>,
) -> Result<(), OutOfMemory>
    ensures { OnOk result (found.new.items ≡ found.old.items ++ targets_of_variant variants.now number content.now) }
{
    for variant in variants {
        if variant.number == number {
            return add_targets(&variant.ty, content, found);
        }
    }
    Ok(())
}

/// The reference check of these targets, in order.
#[tactic(auto, using(crate::proofs::ExtendsLaws::extends_laws))]
pub fn refer_all(m: &Memory, notes: &mut Notes, targets: &[(Pointer, u64)]) -> Result<(), Halt>
    ensures given { Gives same result (referred_to m.now targets.now (seen notes.old))
        (seen notes.new) notes.new.refused }
    ensures kept { Extends (seen notes.old) (seen notes.new) }
{
    for target in targets {
        refer(m, notes, target.0, target.1)?;
    }
    Ok(())
}
