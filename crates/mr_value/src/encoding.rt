//! The bytes that a value is written as.
ghost use Rattle.std.specs.Prelude.{◌≡◌, ◌<◌, ◌≤◌, ◌+◌, ◌*◌, ◌^◌, ◌++◌, true, length, IfOk, OnOk, OnErr};
ghost use Rattle.mr_ast.specs.declared.types.Ty.{Ty};
ghost use Rattle.mr_layout.specs.EnumRules.{are_tags, are_all_tags};
ghost use Rattle.mr_ast.specs.Integers.{is_fitting, int_size};
ghost use Rattle.mr_layout.specs.Parts.{is_ok, are_ok, are_chunks_ok, are_variants_ok};
ghost use Rattle.mr_layout.specs.Sizes.{size_of};
ghost use Rattle.mr_layout.specs.TypeOk.{TypeOk};
ghost use Rattle.mr_runs.specs.Ranges.{with_range_replaced};
ghost use Rattle.mr_runs.specs.Numbers.{with_provenance};
ghost use Rattle.mr_value.specs.Discriminants.{bits_of_number};
ghost use Rattle.mr_value.specs.Encode.{blank, element_bytes, with_chunks, with_tags, encoding_of, write_fields, write_variant, BeginsWith};
ghost use Rattle.mr_value.specs.Numbers.{little_endian, pointer_bytes};
ghost use Rattle.mr_value.specs.Shape.{chunks_size, elements_pass, has_shape, fields_have_shape, variant_has_shape};

use crate::OutOfMemory;
use crate::parts::{bits_in, content_in, pointer_in, truth_in, values_in, variant_in};
use crate::val::Val;
use crate::walking::highest_bit;
use mr_ast::{IntType, Num, Tag, Ty, Variant};
use mr_base::{AbstractByte, AllocId, Pointer};
use mr_layout::int_bytes;
use std::alloc::Global;

// Appends the `count` lowest bytes of a number, each with the provenance.
fn append_number(
    number: u128,
    count: u64,
    provenance: Option<AllocId>,
    out: &mut Vec<AbstractByte>,
) -> Result<(), OutOfMemory>
    ensures ok { OnOk result
        (out.new.items ≡ out.old.items ++ with_provenance provenance (little_endian count number)) }
    ensures err { OnErr result (BeginsWith out.new.items out.old.items) }
{
    let mut rest = number;
    for _i in 0..count {
        out.push(AbstractByte::Init((rest % 256) as u8, provenance))?;
        rest /= 256;
    }
    Ok(())
}

fn append_pointer(pointer: Pointer, out: &mut Vec<AbstractByte>) -> Result<(), OutOfMemory>
    ensures ok { OnOk result (out.new.items ≡ out.old.items ++ pointer_bytes pointer) }
    ensures err { OnErr result (BeginsWith out.new.items out.old.items) }
{
    append_number(pointer.addr as u128, 8, pointer.prov, out)
}

#[tactic(auto, using(crate::proofs::EncodeLaws::encode_laws))]
fn append_bool(truth: bool, out: &mut Vec<AbstractByte>) -> Result<(), OutOfMemory>
    ensures ok { OnOk result (out.new.items ≡ out.old.items ++ encoding_of Ty.Bool (Val.Bool truth)) }
    ensures err { OnErr result (BeginsWith out.new.items out.old.items) }
{
    let byte = if truth { 1 } else { 0 };
    out.push(AbstractByte::Init(byte, None))?;
    Ok(())
}

/// The bits of a number that fits the integer type.
pub fn bits_of_number(int: IntType, number: Num) -> u128
    requires { is_fitting int number ≡ true }
    ensures { result ≡ bits_of_number int number }
{
    if number.neg {
        let highest = highest_bit(int);
        highest + (highest - number.mag)
    } else {
        number.mag
    }
}

// Puts the bytes of `piece` in place of just as many from the offset on.
fn replace(bytes: &mut Vec<AbstractByte>, at: u64, piece: &[AbstractByte])
    requires { at + length piece.now ≤ length bytes.old.items }
    ensures { bytes.new.items ≡ with_range_replaced bytes.old.items at piece.now }
{
    for (i, byte) in piece.iter().enumerate() {
        bytes[at as usize + i] = *byte;
    }
}

fn uninit(alloc: Global, size: u64) -> Result<Vec<AbstractByte>, OutOfMemory>
    ensures { IfOk result (λ bytes. bytes.items ≡ blank size) }
{
    vec![in alloc; AbstractByte::Uninit; size as usize]
}

// Appends the bytes of a value.
#[cycle(encode)]
#[tactic(auto, using(crate::proofs::EncodeLaws::encode_laws))]
fn append(alloc: Global, v: &Val, t: &Ty, out: &mut Vec<AbstractByte>) -> Result<(), OutOfMemory>
    requires ok { is_ok t.now ≡ true }
    requires shape { has_shape t.now v.now ≡ true }
    ensures ok { OnOk result (out.new.items ≡ out.old.items ++ encoding_of t.now v.now) }
    ensures err { OnErr result (BeginsWith out.new.items out.old.items) }
{
    match t {
        Ty::Int(int) => append_number(bits_in(v), int_bytes(*int), None, out),
        Ty::Bool => append_bool(truth_in(v), out),
        Ty::Raw => append_pointer(pointer_in(v), out),
        Ty::FnPtr => append_pointer(pointer_in(v), out),
        Ty::Ref { .. } => append_pointer(pointer_in(v), out),
        Ty::Tuple { size, fields, .. } => {
            let bytes = tuple_bytes(alloc, values_in(v), fields.as_slice(), *size)?;
            out.extend_from_slice(bytes.as_slice())
        }
        Ty::Array { elem, .. } => append_elements(alloc, values_in(v), elem.get(), out),
        Ty::Union { size, chunks, .. } => {
            let bytes = union_bytes(alloc, content_in(v), chunks.as_slice(), *size)?;
            out.extend_from_slice(bytes.as_slice())
        }
        Ty::Enum { size, variants, .. } => {
            let (number, value) = variant_in(v);
            let bytes = variant_bytes(alloc, number, value, variants.as_slice(), *size)?;
            out.extend_from_slice(bytes.as_slice())
        }
    }
}

#[cycle(encode)]
fn tuple_bytes(
    alloc: Global,
    values: &[Val],
    fields: &[(u64, Ty)],
    size: u64,
) -> Result<Vec<AbstractByte>, OutOfMemory>
    requires ok { are_ok size fields.now ≡ true }
    requires shape { fields_have_shape fields.now values.now ≡ true }
    ensures { IfOk result (λ bytes. bytes.items ≡ write_fields fields.now values.now (blank size)) }
{
    let mut bytes = uninit(alloc, size)?;
    for (i, field) in fields.iter().enumerate() {
        let mut piece = Vec::new(alloc);
        append(alloc, &values[i], &field.1, &mut piece)?;
        replace(&mut bytes, field.0, piece.as_slice());
    }
    Ok(bytes)
}

#[cycle(encode)]
fn append_elements(
    alloc: Global,
    values: &[Val],
    elem: &Ty,
    out: &mut Vec<AbstractByte>,
) -> Result<(), OutOfMemory>
    requires ok { is_ok elem.now ≡ true }
    requires shape { elements_pass (has_shape elem.now) values.now ≡ true }
    ensures ok { OnOk result (out.new.items ≡ out.old.items ++ element_bytes (encoding_of elem.now) values.now) }
    ensures err { OnErr result (BeginsWith out.new.items out.old.items) }
{
    for value in values {
        append(alloc, value, elem, out)?;
    }
    Ok(())
}

// The content, each piece in its chunk, among uninitialised bytes.
fn union_bytes(
    alloc: Global,
    content: &[AbstractByte],
    chunks: &[(u64, u64)],
    size: u64,
) -> Result<Vec<AbstractByte>, OutOfMemory>
    requires ok { are_chunks_ok size chunks.now ≡ true }
    requires sized { length content.now ≡ chunks_size chunks.now }
    ensures { IfOk result (λ bytes. bytes.items ≡ with_chunks chunks.now content.now (blank size)) }
{
    let mut bytes = uninit(alloc, size)?;
    let mut rest = content;
    for chunk in chunks {
        let (piece, behind) = rest.split_at(chunk.1 as usize);
        replace(&mut bytes, chunk.0, piece);
        rest = behind;
    }
    Ok(bytes)
}

#[cycle(encode)]
fn variant_bytes(
    alloc: Global,
    number: Num,
    value: &Val,
    variants: &[Variant],
    size: u64,
) -> Result<Vec<AbstractByte>, OutOfMemory>
    requires ok { are_variants_ok size variants.now ≡ true }
    requires tags { are_all_tags size variants.now ≡ true }
    requires shape { variant_has_shape variants.now number value.now ≡ true }
    ensures { IfOk result (λ bytes. bytes.items ≡ write_variant variants.now number value.now) }
{
    for variant in variants {
        if variant.number == number {
            let mut bytes = Vec::new(alloc);
            append(alloc, value, &variant.ty, &mut bytes)?;
            prove!(bytes.len() as u64 == size);
            write_tags(alloc, variant.tags.as_slice(), &mut bytes)?;
            return Ok(bytes);
        }
    }
    unreachable!()
}

// Puts each tag in its place.
fn write_tags(alloc: Global, tags: &[Tag], bytes: &mut Vec<AbstractByte>) -> Result<(), OutOfMemory>
    requires { (t : Ty) × (are_tags (length bytes.old.items) t tags.now ≡ true) }
    ensures { OnOk result (bytes.new.items ≡ with_tags tags.now bytes.old.items) }
{
    for tag in tags {
        let mut piece = Vec::new(alloc);
        append_number(
            bits_of_number(tag.int, tag.number),
            int_bytes(tag.int),
            None,
            &mut piece,
        )?;
        replace(bytes, tag.at, piece.as_slice());
    }
    Ok(())
}

/// Appends the bytes that a value is written as. Those that no part of it writes are uninitialised.
///
/// The only error is want of memory. After it `out` is as it was.
pub fn encode(
    alloc: Global,
    v: &Val,
    t: &Ty,
    out: &mut Vec<AbstractByte>,
) -> Result<(), OutOfMemory>
    requires ok { TypeOk t.now }
    requires shape { has_shape t.now v.now ≡ true }
    ensures ok { OnOk result (out.new.items ≡ out.old.items ++ encoding_of t.now v.now) }
    ensures err { OnErr result (out.new.items ≡ out.old.items) }
{
    let held = out.len();
    let answer = append(alloc, v, t, out);
    if answer.is_err() {
        out.truncate(held);
    }
    answer
}
