//! What bytes mean at a type.
ghost use Rattle.std.specs.Prelude.{◌≡◌, ◌≤◌, ◌+◌, ◌*◌, ◌++◌, true, length, IfOk, IfSome, IfNone, OnOk};
ghost use Rattle.mr_layout.specs.Sizes.{size_of};
ghost use Rattle.mr_layout.specs.Parts.{is_ok, are_ok, are_variants_ok, are_chunks_ok};
ghost use Rattle.mr_layout.specs.TypeOk.{TypeOk};
ghost use Rattle.mr_runs.specs.Pieces.{bytes_of_pieces};
ghost use Rattle.mr_value.specs.Numbers.{part};
ghost use Rattle.mr_value.specs.declared.val.Val.{Val};
ghost use Rattle.mr_value.specs.Shape.{has_shape};
ghost use Rattle.mr_value.specs.Decode.{Means, decoded, read_fields, read_variant, elements_in, chunks_in};

use crate::OutOfMemory;
use crate::scalars::scalar_at;
use crate::val::Val;
use crate::walking::walk_at;
use mr_ast::{Boxed, Items, Num, Ty, Variant};
use mr_base::AbstractByte;
use mr_runs::View;
use std::alloc::Global;

// The size of a type that breaks no rule.
fn bytes_of(t: &Ty) -> u64
    requires { is_ok t.now ≡ true }
    ensures { result ≡ size_of t.now }
{
    match mr_layout::size(t) {
        Some(size) => size,
        None => unreachable!(),
    }
}

// The value of the bytes from an offset on.
#[cycle(decode)]
#[tactic(auto, using(crate::proofs::DecodeLaws::decode_laws, mr_layout::proofs::SizeLaws::size_laws))]
fn decode_at(alloc: Global, v: &View<'_>, at: u64, t: &Ty) -> Result<Option<Val>, OutOfMemory>
    requires ok { is_ok t.now ≡ true }
    requires inside { at + size_of t.now ≤ length (bytes_of_pieces v.now) }
    ensures { IfOk result (λ o. o ≡ decoded t.now (part at (size_of t.now) (bytes_of_pieces v.now))) }
{
    match t {
        Ty::Int(_) => Ok(scalar_at(v, at, t)),
        Ty::Bool => Ok(scalar_at(v, at, t)),
        Ty::Raw => Ok(scalar_at(v, at, t)),
        Ty::FnPtr => Ok(scalar_at(v, at, t)),
        Ty::Ref { .. } => Ok(scalar_at(v, at, t)),
        Ty::Tuple { size, fields, .. } => {
            match decode_fields(alloc, v, at, *size, fields.as_slice())? {
                Some(values) => Ok(Some(Val::Tuple(values))),
                None => Ok(None),
            }
        }
        Ty::Array { count, elem } => match decode_elements(alloc, v, at, *count, elem.get())? {
            Some(values) => Ok(Some(Val::Tuple(values))),
            None => Ok(None),
        },
        Ty::Union { size, chunks, .. } => {
            let content = decode_chunks(alloc, v, at, *size, chunks.as_slice())?;
            Ok(Some(Val::Union(content)))
        }
        Ty::Enum {
            size,
            variants,
            tree,
            ..
        } => match walk_at(v, at, *size, tree) {
            Some(number) => decode_variant(alloc, v, at, *size, variants.as_slice(), number),
            None => Ok(None),
        },
    }
}

#[cycle(decode)]
fn decode_fields(
    alloc: Global,
    v: &View<'_>,
    at: u64,
    size: u64,
    fields: &[(u64, Ty)],
) -> Result<Option<Items<Val>>, OutOfMemory>
    requires ok { are_ok size fields.now ≡ true }
    requires inside { at + size ≤ length (bytes_of_pieces v.now) }
    ensures { IfOk result (λ o. o ≡ read_fields fields.now (part at size (bytes_of_pieces v.now))) }
{
    prove!(size <= v.len());
    let mut values = Items::new(alloc);
    for field in fields {
        match decode_at(alloc, v, at + field.0, &field.1)? {
            Some(value) => values.push(value)?,
            None => return Ok(None),
        }
    }
    Ok(Some(values))
}

#[cycle(decode)]
fn decode_elements(
    alloc: Global,
    v: &View<'_>,
    at: u64,
    count: u64,
    elem: &Ty,
) -> Result<Option<Items<Val>>, OutOfMemory>
    requires ok { is_ok elem.now ≡ true }
    requires inside { at + count * size_of elem.now ≤ length (bytes_of_pieces v.now) }
    ensures { IfOk result (λ o. o ≡ elements_in count (size_of elem.now) (decoded elem.now)
        (part at (count * size_of elem.now) (bytes_of_pieces v.now))) }
{
    let _all = v.len();
    let size = bytes_of(elem);
    let mut values = Items::new(alloc);
    for i in 0..count {
        match decode_at(alloc, v, at + i * size, elem)? {
            Some(value) => values.push(value)?,
            None => return Ok(None),
        }
    }
    Ok(Some(values))
}

#[cycle(decode)]
fn decode_variant(
    alloc: Global,
    v: &View<'_>,
    at: u64,
    size: u64,
    variants: &[Variant],
    number: Num,
) -> Result<Option<Val>, OutOfMemory>
    requires ok { are_variants_ok size variants.now ≡ true }
    requires inside { at + size ≤ length (bytes_of_pieces v.now) }
    ensures { IfOk result (λ o. o ≡ read_variant variants.now (part at size (bytes_of_pieces v.now)) number) }
{
    prove!(size <= v.len());
    for variant in variants {
        if variant.number == number {
            return match decode_at(alloc, v, at, &variant.ty)? {
                Some(value) => Ok(Some(Val::Variant(number, Boxed::new(alloc, value)?))),
                None => Ok(None),
            };
        }
    }
    Ok(None)
}

// The bytes of the chunks, joined.
fn decode_chunks(
    alloc: Global,
    v: &View<'_>,
    at: u64,
    size: u64,
    chunks: &[(u64, u64)],
) -> Result<Items<AbstractByte>, OutOfMemory>
    requires ok { are_chunks_ok size chunks.now ≡ true }
    requires inside { at + size ≤ length (bytes_of_pieces v.now) }
    ensures { IfOk result (λ bytes. bytes ≡ chunks_in chunks.now (part at size (bytes_of_pieces v.now))) }
{
    prove!(size <= v.len());
    let mut content = Items::new(alloc);
    for chunk in chunks {
        copy_range(v, at + chunk.0, chunk.1, &mut content)?;
    }
    Ok(content)
}

// Appends `len` bytes from an offset on.
fn copy_range(
    v: &View<'_>,
    at: u64,
    len: u64,
    out: &mut Items<AbstractByte>,
) -> Result<(), OutOfMemory>
    requires { at + len ≤ length (bytes_of_pieces v.now) }
    ensures { OnOk result (out.new ≡ out.old ++ part at len (bytes_of_pieces v.now)) }
{
    let _all = v.len();
    for i in 0..len {
        out.push(v.byte(at + i))?;
    }
    Ok(())
}

/// The value that bytes mean at a type, and `None` exactly where they mean none.
///
/// The only error is want of memory.
pub fn decode(alloc: Global, v: &View<'_>, t: &Ty) -> Result<Option<Val>, OutOfMemory>
    requires ok { TypeOk t.now }
    requires sized { length (bytes_of_pieces v.now) ≡ size_of t.now }
    ensures value { IfOk result (λ o. o ≡ decoded t.now (bytes_of_pieces v.now)) }
    ensures meaning { IfOk result (λ o. IfSome o (Means t.now (bytes_of_pieces v.now))) }
    ensures none { IfOk result (λ o. IfNone o ((w : Val) → Means t.now (bytes_of_pieces v.now) w → ⊥)) }
    ensures shape { IfOk result (λ o. IfSome o (λ w. has_shape t.now w ≡ true)) }
{
    decode_at(alloc, v, 0, t)
}
