//! Whether two parts of a list are alike or meet: in the time of a sort where memory is at hand for it, and else each with
//! each.
ghost use Rattle.std.specs.Prelude.{◌≡◌, ◌<◌, ◌≤◌, ◌+◌, ◌^◌, ◌++◌, ◌∷◌, [], false, map, IfOk, IfSome, OnOk};
ghost use Rattle.mr_ast.specs.Integers.{int_size};
ghost use Rattle.mr_base.specs.Pairs.{not_empty};
ghost use Rattle.mr_layout.specs.Alike.{AreKeys, number_key, variant_key, case_key, tag_range, field_range, number_twice, case_twice, tags_meeting};
ghost use Rattle.mr_layout.specs.EnumRules.{is_number_of, is_case, meets_tag};
ghost use Rattle.mr_layout.specs.Rules.{is_chunk_overlapping, is_overlapping, is_past};
ghost use Rattle.mr_layout.specs.Sizes.{size_of};

use crate::enum_rules::{is_case, is_number_of, meets_tag};
use crate::rules::{are_chunks_overlapping, are_overlapping};
use crate::sizes::{int_bytes, size};
use mr_ast::{Num, OutOfMemory, Tag, Tree, Ty, Variant};
use mr_base::{Pair, any_meeting, any_twice, is_among};
use std::alloc::Global;

/// Where memory may be taken from, if it may.
pub(crate) type Room = Option<Global>;

fn number_key(number: Num) -> Pair
    ensures { result ≡ number_key number }
{
    (if number.neg { 1 } else { 0 }, number.mag)
}

fn variant_keys(alloc: Global, variants: &[Variant]) -> Result<Vec<Pair>, OutOfMemory>
    ensures { IfOk result (λ keys. keys.items ≡ map variant_key variants.now) }
{
    let mut keys = Vec::new(alloc);
    for variant in variants {
        keys.push(number_key(variant.number))?;
    }
    Ok(keys)
}

/// The numbers of the variants in order, where memory is at hand for them.
pub(crate) fn sorted_keys(room: Room, variants: &[Variant]) -> Option<Vec<Pair>>
    ensures { IfSome result (λ keys. AreKeys variants.now keys.items) }
{
    match room {
        Some(alloc) => match variant_keys(alloc, variants) {
            Ok(mut keys) => {
                keys.sort_unstable();
                Some(keys)
            }
            Err(_) => None,
        },
        None => None,
    }
}

/// Whether a variant has the number: they are searched in order, or else one after another.
pub(crate) fn is_known(number: Num, variants: &[Variant], keys: &Option<Vec<Pair>>) -> bool
    requires { IfSome keys.now (λ keys. AreKeys variants.now keys.items) }
    ensures { result ≡ is_number_of number variants.now }
{
    match keys {
        Some(sorted) => is_among(number_key(number), sorted.as_slice()),
        None => is_number_of(number, variants),
    }
}

/// Whether two variants have one number.
#[tactic(auto, using(crate::proofs::AlikeLaws::number_twice_keys))]
pub(crate) fn is_number_twice(room: Room, variants: &[Variant]) -> bool
    ensures { result ≡ number_twice variants.now }
{
    match room {
        Some(alloc) => match variant_keys(alloc, variants) {
            Ok(mut keys) => any_twice(keys.as_mut_slice()),
            Err(_) => is_number_in_two(variants),
        },
        None => is_number_in_two(variants),
    }
}

fn is_number_in_two(variants: &[Variant]) -> bool
    ensures { result ≡ number_twice variants.now }
{
    for i in 0..variants.len() {
        if is_number_of(variants[i].number, &variants[i + 1..]) {
            return true;
        }
    }
    false
}

fn case_keys(alloc: Global, cases: &[(Num, Tree)]) -> Result<Vec<Pair>, OutOfMemory>
    ensures { IfOk result (λ keys. keys.items ≡ map case_key cases.now) }
{
    let mut keys = Vec::new(alloc);
    for case in cases {
        keys.push(number_key(case.0))?;
    }
    Ok(keys)
}

/// Whether two cases of a branch have one number.
#[tactic(auto, using(crate::proofs::AlikeLaws::case_twice_keys))]
pub(crate) fn is_case_twice(room: Room, cases: &[(Num, Tree)]) -> bool
    ensures { result ≡ case_twice cases.now }
{
    match room {
        Some(alloc) => match case_keys(alloc, cases) {
            Ok(mut keys) => any_twice(keys.as_mut_slice()),
            Err(_) => is_case_in_two(cases),
        },
        None => is_case_in_two(cases),
    }
}

fn is_case_in_two(cases: &[(Num, Tree)]) -> bool
    ensures { result ≡ case_twice cases.now }
{
    for i in 0..cases.len() {
        if is_case(cases[i].0, &cases[i + 1..]) {
            return true;
        }
    }
    false
}

// A range behind others, unless it has no byte.
pub(crate) fn push_range(ranges: &mut Vec<Pair>, start: u64, len: u64) -> Result<(), OutOfMemory>
    ensures { OnOk result (ranges.new.items ≡ ranges.old.items ++ not_empty ((start, len) ∷ [])) }
{
    if len > 0 {
        ranges.push((start as u128, len as u128))?;
    }
    Ok(())
}

pub(crate) fn tag_ranges(alloc: Global, tags: &[Tag]) -> Result<Vec<Pair>, OutOfMemory>
    ensures { IfOk result (λ ranges. ranges.items ≡ not_empty (map tag_range tags.now)) }
{
    let mut ranges = Vec::new(alloc);
    for tag in tags {
        push_range(&mut ranges, tag.at, int_bytes(tag.int))?;
    }
    Ok(ranges)
}

/// Whether two tags of a variant have a byte in common.
#[tactic(auto, using(crate::proofs::AlikeLaws::tags_meeting_some, mr_base::proofs::Twins::all_not_empty))]
pub(crate) fn are_tags_meeting(room: Room, tags: &[Tag]) -> bool
    ensures { result ≡ tags_meeting tags.now }
{
    match room {
        Some(alloc) => match tag_ranges(alloc, tags) {
            Ok(mut ranges) => any_meeting(ranges.as_mut_slice()),
            Err(_) => are_two_tags_meeting(tags),
        },
        None => are_two_tags_meeting(tags),
    }
}

fn are_two_tags_meeting(tags: &[Tag]) -> bool
    ensures { result ≡ tags_meeting tags.now }
{
    for i in 0..tags.len() {
        if meets_tag(&tags[i], &tags[i + 1..]) {
            return true;
        }
    }
    false
}

fn chunk_ranges(alloc: Global, chunks: &[(u64, u64)]) -> Result<Vec<Pair>, OutOfMemory>
    ensures { IfOk result (λ ranges. ranges.items ≡ not_empty chunks.now) }
{
    let mut ranges = Vec::new(alloc);
    for chunk in chunks {
        push_range(&mut ranges, chunk.0, chunk.1)?;
    }
    Ok(ranges)
}

/// Whether two chunks have a byte in common.
#[tactic(auto, using(crate::proofs::AlikeLaws::chunk_overlapping_some, mr_base::proofs::Twins::all_not_empty))]
pub(crate) fn is_chunk_overlapping(room: Room, chunks: &[(u64, u64)]) -> bool
    ensures { result ≡ is_chunk_overlapping chunks.now }
{
    match room {
        Some(alloc) => match chunk_ranges(alloc, chunks) {
            Ok(mut ranges) => any_meeting(ranges.as_mut_slice()),
            Err(_) => are_chunks_overlapping(chunks),
        },
        None => are_chunks_overlapping(chunks),
    }
}

// The size of a field that ends below 2^63.
pub(crate) fn field_size(end: u64, start: u64, t: &Ty) -> u64
    requires small { end < 2 ^ 63 }
    requires inside { start + size_of t.now ≤ end }
    ensures { result ≡ size_of t.now }
{
    match size(t) {
        Some(len) => len,
        None => 0,
    }
}

fn field_ranges(alloc: Global, end: u64, fields: &[(u64, Ty)]) -> Result<Vec<Pair>, OutOfMemory>
    requires small { end < 2 ^ 63 }
    requires inside { is_past end fields.now ≡ false }
    ensures { IfOk result (λ ranges. ranges.items ≡ not_empty (map field_range fields.now)) }
{
    let mut ranges = Vec::new(alloc);
    for field in fields {
        push_range(&mut ranges, field.0, field_size(end, field.0, &field.1))?;
    }
    Ok(ranges)
}

/// Whether two fields have a byte in common.
#[tactic(auto, using(crate::proofs::AlikeLaws::overlapping_some, mr_base::proofs::Twins::all_not_empty))]
pub(crate) fn is_overlapping(room: Room, end: u64, fields: &[(u64, Ty)]) -> bool
    requires small { end < 2 ^ 63 }
    requires inside { is_past end fields.now ≡ false }
    ensures { result ≡ is_overlapping fields.now }
{
    match room {
        Some(alloc) => match field_ranges(alloc, end, fields) {
            Ok(mut ranges) => any_meeting(ranges.as_mut_slice()),
            Err(_) => are_overlapping(end, fields),
        },
        None => are_overlapping(end, fields),
    }
}
