//! Unions from a field, and transmutes.
ghost use Rattle.std.specs.Prelude.{◌≡◌, ◌≤◌, ◌+◌, ◌++◌, IfOk, OnOk, Some, length, true};
ghost use Rattle.mr_layout.specs.Sizes.{size_of};
ghost use Rattle.mr_layout.specs.TypeOk.{TypeOk};
ghost use Rattle.mr_runs.specs.Ranges.{with_range_replaced};
ghost use Rattle.mr_base.specs.Script.{run};
ghost use Rattle.mr_value.specs.Decode.{decoded};
ghost use Rattle.mr_value.specs.Encode.{blank, encoding_of};
ghost use Rattle.mr_value.specs.Shape.{has_shape};
ghost use Rattle.mr_typing.specs.Known.{ty_of};
ghost use Rattle.mr_typing.specs.Types.{overflow_type};
ghost use Rattle.mr_eval.specs.Answers.{Extends, FieldShaped, Gives, Says, same, seen};
ghost use Rattle.mr_eval.specs.Evaluated.{transmuted_to};
ghost use Rattle.mr_eval.specs.Evaluation.{union_of};

use crate::halt::Halt;
use crate::loading::referred;
use crate::notes::Notes;
use mr_ast::{IntType, Items, Ty};
use mr_base::{AbstractByte, Reason};
use mr_layout::int_bytes;
use mr_mem::Memory;
use mr_runs::Runs;
use mr_typing::Known;
use mr_value::{OutOfMemory, Val, decode, encode};
use std::alloc::Global;

// What is meant at a type of this size by bytes among which a piece lies at an offset, where the others are uninitialised.
#[tactic(auto, using(crate::proofs::RecastLaws::laid_laws))]
fn laid(
    alloc: Global,
    t: &Ty,
    size: u64,
    at: u64,
    piece: &[AbstractByte],
) -> Result<Option<Val>, OutOfMemory>
    requires ok { TypeOk t.now }
    requires sized { size ≡ size_of t.now }
    requires inside { at + length piece.now ≤ size }
    ensures { IfOk result (λ o. o ≡ decoded t.now (with_range_replaced (blank size) at piece.now)) }
{
    let mut bytes = Runs::uninit(alloc, size)?;
    bytes.write(at, piece)?;
    decode(alloc, &bytes.view(0, size), t)
}

/// A union of which a field is written: the bytes of its chunks.
#[tactic(auto, using(crate::proofs::RecastLaws::union_laws))]
pub fn union_of(alloc: Global, t: &Ty, number: u64, v: &Val) -> Result<Val, Halt>
    requires ok { TypeOk t.now }
    requires shape { FieldShaped t.now number v.now }
    ensures { Says same result (union_of t.now number v.now) }
{
    let Ty::Union { size, fields, .. } = t else {
        return Err(Halt::IllFormed);
    };
    let Some((offset, field)) = fields.get(number as usize) else {
        return Err(Halt::IllFormed);
    };
    let mut piece = Vec::new(alloc);
    encode(alloc, v, field, &mut piece)?;
    match laid(alloc, t, *size, *offset, piece.as_slice())? {
        Some(union) => Ok(union),
        None => unreachable!(),
    }
}

// The type of what an overflowing operator gives on integers of this type.
fn overflow_type(alloc: Global, int: IntType) -> Result<Ty, OutOfMemory>
    ensures { IfOk result (λ t. t ≡ overflow_type int) }
{
    let bytes = int_bytes(int);
    let mut fields = Items::new(alloc);
    fields.push((0, Ty::Int(int)))?;
    fields.push((bytes, Ty::Bool))?;
    Ok(Ty::Tuple {
        size: 2 * bytes,
        align: bytes,
        fields,
    })
}

// Appends the bytes of a value of a type.
fn encode_as(alloc: Global, v: &Val, t: Ty, out: &mut Vec<AbstractByte>) -> Result<(), OutOfMemory>
    requires ok { TypeOk t }
    requires shape { has_shape t v.now ≡ true }
    ensures { OnOk result (out.new.items ≡ out.old.items ++ encoding_of t v.now) }
{
    encode(alloc, v, &t, out)
}

// Appends the bytes of what an overflowing operator gives on integers of this type.
#[tactic(auto, using(crate::proofs::OverflowTypes::overflow_ok))]
fn encode_overflow(
    alloc: Global,
    v: &Val,
    int: IntType,
    out: &mut Vec<AbstractByte>,
) -> Result<(), OutOfMemory>
    requires { has_shape (overflow_type int) v.now ≡ true }
    ensures { OnOk result (out.new.items ≡ out.old.items ++ encoding_of (overflow_type int) v.now) }
{
    let t = overflow_type(alloc, int)?;
    encode_as(alloc, v, t, out)
}

// Appends the bytes of a value of a known type.
#[tactic(auto, using(mr_layout::proofs::BrokenLaws::broken_int, mr_layout::proofs::BrokenLaws::broken_bool, mr_layout::proofs::BrokenLaws::broken_raw, mr_layout::proofs::BrokenLaws::broken_fn_ptr))]
fn encode_known(
    alloc: Global,
    v: &Val,
    known: Known<'_>,
    out: &mut Vec<AbstractByte>,
) -> Result<(), OutOfMemory>
    requires ok { TypeOk (ty_of known) }
    requires shape { has_shape (ty_of known) v.now ≡ true }
    ensures { OnOk result (out.new.items ≡ out.old.items ++ encoding_of (ty_of known.entry) v.now) }
{
    match known {
        Known::Written(t) => encode(alloc, v, t, out),
        Known::Int(int) => encode_as(alloc, v, Ty::Int(int), out),
        Known::Bool => encode_as(alloc, v, Ty::Bool, out),
        Known::Raw => encode_as(alloc, v, Ty::Raw, out),
        Known::FnPtr => encode_as(alloc, v, Ty::FnPtr, out),
        Known::Overflow(int) => encode_overflow(alloc, v, int, out),
    }
}

/// What the bytes of a value are as a value of another type of the same size, where they are one. Nothing is checked.
#[tactic(auto, using(crate::proofs::RecastLaws::transmute_laws))]
pub fn recast(alloc: Global, to: &Ty, from: Known<'_>, v: &Val) -> Result<Option<Val>, OutOfMemory>
    requires ok { TypeOk to.now }
    requires from_ok { TypeOk (ty_of from) }
    requires shape { has_shape (ty_of from) v.now ≡ true }
    requires same { size_of (ty_of from) ≡ size_of to.now }
    ensures { IfOk result (λ o. o ≡ decoded to.now (encoding_of (ty_of from.entry) v.now)) }
{
    let mut piece = Vec::new(alloc);
    encode_known(alloc, v, from, &mut piece)?;
    let bytes = piece.as_slice();
    laid(alloc, to, bytes.len() as u64, 0, bytes)
}

/// The bytes of a value, taken for another type of the same size.
#[tactic(auto, using(crate::proofs::ExtendsLaws::extends_laws))]
pub fn transmuted(
    alloc: Global,
    m: &Memory,
    notes: &mut Notes,
    to: &Ty,
    from: Known<'_>,
    v: &Val,
) -> Result<Val, Halt>
    requires ok { TypeOk to.now }
    requires from_ok { TypeOk (ty_of from) }
    requires shape { has_shape (ty_of from) v.now ≡ true }
    requires same { size_of (ty_of from) ≡ size_of to.now }
    ensures given { Gives same result (transmuted_to m.now to.now (Some (ty_of from.entry)) v.now (seen notes.old))
        (seen notes.new) notes.new.refused }
    ensures kept { Extends (seen notes.old) (seen notes.new) }
{
    match recast(alloc, to, from, v)? {
        Some(v) => referred(alloc, m, notes, to, v),
        None => Err(Halt::Undefined(Reason::TransmuteInvalid)),
    }
}
