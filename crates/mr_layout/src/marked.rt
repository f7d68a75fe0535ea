//! Whether a part uses a marked byte: a row of elements is folded to one, so that each part looks at a byte of a table
//! a few times at the most.
ghost use Rattle.std.specs.Prelude.{◌≡◌, ◌<◌, ◌+◌, ◌*◌, ◌^◌, ℕ, true, false, take, drop, IfSome};
ghost use Rattle.mr_layout.specs.Marks.{is_mark, is_marked, is_field_marked, is_chunk_marked, is_tag_marked, is_variant_marked, are_unmarked};
ghost use Rattle.mr_layout.specs.Rules.{is_past};
ghost use Rattle.mr_layout.specs.Met.{is_in_order};
ghost use Rattle.mr_layout.specs.Tables.{is_used_row};
ghost use Rattle.mr_layout.specs.Used.{is_in_chunk, is_used};

use crate::alike::field_size;
use crate::marks::{behind, first, folded, is_run_marked};
use crate::met::is_run_met;
use crate::sizes::{int_bytes, size};
use mr_ast::{Tag, Ty, Variant};
use mr_base::Pair;
use std::alloc::Global;

// The bytes of a table that elements in a row have.
fn row(table: &[u8], count: u64, len: u64) -> &[u8]
    ensures { result.now ≡ take (count * len) table.now }
{
    match count.checked_mul(len) {
        Some(bytes) => first(table, bytes),
        None => table,
    }
}

// Whether a type that begins with a table uses a marked byte. It isn't told where memory is wanting.
#[cycle(marked)]
#[tactic(auto, using(crate::proofs::MarkLaws::mark_laws))]
fn is_marked(alloc: Global, t: &Ty, table: &[u8]) -> Option<bool>
    ensures { IfSome result (λ b. b ≡ is_marked (is_used t.now) table.now) }
{
    match t {
        Ty::Int(i) => Some(is_run_marked(0, int_bytes(*i), table)),
        Ty::Bool => Some(is_run_marked(0, 1, table)),
        Ty::Raw => Some(is_run_marked(0, 8, table)),
        Ty::FnPtr => Some(is_run_marked(0, 8, table)),
        Ty::Ref { .. } => Some(is_run_marked(0, 8, table)),
        Ty::Tuple { fields, .. } => is_field_marked(alloc, fields.as_slice(), table),
        Ty::Array { count, elem } => is_row_marked(alloc, *count, elem.get(), table),
        Ty::Union { chunks, .. } => Some(is_chunk_marked(chunks.as_slice(), table)),
        Ty::Enum { variants, .. } => is_variant_marked(alloc, variants.as_slice(), table),
    }
}

// Whether elements in a row use a marked byte. Those of arrays in an array are looked at as those of one.
#[cycle(marked)]
fn is_row_marked(alloc: Global, count: u64, elem: &Ty, table: &[u8]) -> Option<bool>
    ensures { IfSome result (λ b. b ≡ is_marked (is_used_row count elem.now) table.now) }
{
    match elem {
        Ty::Array {
            count: each,
            elem: part,
        } => match count.checked_mul(*each) {
            Some(all) => is_row_marked(alloc, all, part.get(), table),
            None => is_elem_marked(alloc, count, elem, table),
        },
        _ => is_elem_marked(alloc, count, elem, table),
    }
}

// The same: the row is folded to one element.
#[cycle(marked)]
fn is_elem_marked(alloc: Global, count: u64, elem: &Ty, table: &[u8]) -> Option<bool>
    ensures { IfSome result (λ b. b ≡ is_marked (is_used_row count elem.now) table.now) }
{
    let Some(len) = size(elem) else {
        return None;
    };
    let elems = row(table, count, len);
    let bytes = elems.len() as u64;
    if bytes <= len {
        return is_marked(alloc, elem, elems);
    }
    if len == 0 {
        return None;
    }
    match folded(alloc, elems, len) {
        Ok(one) => is_marked(alloc, elem, one.as_slice()),
        Err(_) => None,
    }
}

#[cycle(marked)]
fn is_field_marked(alloc: Global, fields: &[(u64, Ty)], table: &[u8]) -> Option<bool>
    ensures { IfSome result (λ b. b ≡ is_field_marked fields.now table.now) }
{
    for field in fields {
        match is_marked(alloc, &field.1, behind(table, field.0)) {
            Some(false) => {}
            Some(true) => return Some(true),
            None => return None,
        }
    }
    Some(false)
}

fn is_chunk_marked(chunks: &[(u64, u64)], table: &[u8]) -> bool
    ensures { result ≡ is_chunk_marked chunks.now table.now }
{
    for chunk in chunks {
        if is_run_marked(chunk.0, chunk.1, table) {
            return true;
        }
    }
    false
}

fn is_tag_marked(tags: &[Tag], table: &[u8]) -> bool
    ensures { result ≡ is_tag_marked tags.now table.now }
{
    for tag in tags {
        if is_run_marked(tag.at, int_bytes(tag.int), table) {
            return true;
        }
    }
    false
}

#[cycle(marked)]
fn is_variant_marked(alloc: Global, variants: &[Variant], table: &[u8]) -> Option<bool>
    ensures { IfSome result (λ b. b ≡ is_variant_marked variants.now table.now) }
{
    for variant in variants {
        match is_marked(alloc, &variant.ty, table) {
            Some(false) => {}
            Some(true) => return Some(true),
            None => return None,
        }
        if is_tag_marked(variant.tags.as_slice(), table) {
            return Some(true);
        }
    }
    Some(false)
}

// Whether a part of a union uses a marked byte of its table: a part that meets no gap uses none, and isn't looked at.
#[tactic(auto, using(crate::proofs::MarkLaws::marked_missed))]
fn is_part_marked(
    alloc: Global,
    start: u64,
    len: u64,
    t: &Ty,
    gaps: &[Pair],
    table: &[u8],
) -> Option<bool>
    requires small { start + len < 2 ^ 63 }
    requires order { is_in_order gaps.now ≡ true }
    requires marks { (k : ℕ) → is_mark table.now k ≡ true → is_in_chunk gaps.now k ≡ true }
    ensures { IfSome result (λ b. b ≡ is_marked (is_used t.now) (take len (drop start table.now))) }
{
    let stop = start + len;
    if is_run_met(gaps, start as u128, len, stop as u128) {
        is_marked(alloc, t, first(behind(table, start), len))
    } else {
        Some(false)
    }
}

/// Whether no field uses a marked byte of a union's table, whose marks lie in gaps. It isn't told where memory is
/// wanting.
pub(crate) fn are_unmarked(
    alloc: Global,
    end: u64,
    fields: &[(u64, Ty)],
    gaps: &[Pair],
    table: &[u8],
) -> Option<bool>
    requires small { end < 2 ^ 63 }
    requires inside { is_past end fields.now ≡ false }
    requires order { is_in_order gaps.now ≡ true }
    requires marks { (k : ℕ) → is_mark table.now k ≡ true → is_in_chunk gaps.now k ≡ true }
    ensures { IfSome result (λ b. b ≡ are_unmarked fields.now table.now) }
{
    for field in fields {
        let len = field_size(end, field.0, &field.1);
        match is_part_marked(alloc, field.0, len, &field.1, gaps, table) {
            Some(false) => {}
            Some(true) => return Some(false),
            None => return None,
        }
    }
    Some(true)
}
