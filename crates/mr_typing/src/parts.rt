//! The parts of a type: fields, elements, variants and the discriminant.
ghost use Rattle.std.specs.Prelude.{◌≡◌, option_copied, option_map, slice_get};
ghost use Rattle.mr_ast.specs.declared.types.Ty.{out-Ty};
ghost use Rattle.mr_ast.specs.declared.types.Ty.TheVariants as ty;
ghost use Rattle.mr_typing.specs.Types.{among, discriminant_type, element_type, field_offset, field_part, field_type, tags_layer, variant_part, variant_type};

use mr_ast::{IntType, Num, Tag, Ty, Variant};

/// Where the field of this number, from 0, of a tuple or a union begins.
pub fn offset(t: &Ty, number: u64) -> Option<u64>
    ensures { result ≡ field_offset (out-Ty t.now) number }
{
    match field_part(t, number) {
        Some((offset, _)) => Some(*offset),
        None => None,
    }
}

/// The type of the field of this number, from 0, of a tuple or a union.
pub fn field(t: &Ty, number: u64) -> Option<&Ty>
    ensures { option_copied result ≡ field_type t.now number }
{
    match field_part(t, number) {
        Some((_, ty)) => Some(ty),
        None => None,
    }
}

fn field_part(t: &Ty, number: u64) -> Option<&(u64, Ty)>
    ensures { option_copied result ≡ field_part (out-Ty t.now) number }
{
    match t {
        Ty::Tuple { fields, .. } | Ty::Union { fields, .. } => {
            field_among(fields.as_slice(), number)
        }
        _ => None,
    }
}

fn field_among(fields: &[(u64, Ty)], number: u64) -> Option<&(u64, Ty)>
    ensures { option_copied result ≡ slice_get fields.now number }
{
    fields.get(number as usize)
}

/// The type of an array's elements.
pub fn element(t: &Ty) -> Option<&Ty>
    ensures { option_copied result ≡ element_type t.now }
{
    match t {
        Ty::Array { elem, .. } => Some(elem.get()),
        _ => None,
    }
}

/// The type of the variant with this number.
#[tactic(auto, using(crate::proofs::PartLaws::part_laws))]
pub fn variant(t: &Ty, number: Num) -> Option<&Ty>
    ensures { option_copied result ≡ variant_type t.now number }
{
    match variant_numbered(t, number) {
        Some(variant) => Some(&variant.ty),
        None => None,
    }
}

/// The tags of the variant with this number.
#[tactic(auto, using(crate::proofs::PartLaws::part_laws))]
pub fn tags(t: &Ty, number: Num) -> Option<&[Tag]>
    ensures { option_copied result ≡ tags_layer (out-Ty t.now) number }
{
    match variant_numbered(t, number) {
        Some(variant) => Some(variant.tags.as_slice()),
        None => None,
    }
}

fn variant_numbered(t: &Ty, number: Num) -> Option<&Variant>
    ensures { option_copied result ≡ variant_part (λ v. v) (out-Ty t.now) number }
{
    match t {
        Ty::Enum { variants, .. } => numbered_among(variants.as_slice(), number),
        _ => None,
    }
}

fn numbered_among(variants: &[Variant], number: Num) -> Option<&Variant>
    ensures { option_copied result ≡ among (λ v. v) variants.now number }
{
    for variant in variants {
        if variant.number == number {
            return Some(variant);
        }
    }
    None
}

/// The integers by which an enum's variants are told.
pub fn discriminant(t: &Ty) -> Option<IntType>
    ensures { option_map (λ i. ty.Int i) result ≡ discriminant_type t.now }
{
    match t {
        Ty::Enum { disc, .. } => Some(*disc),
        _ => None,
    }
}
