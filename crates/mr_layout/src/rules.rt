//! The rules of tuples, references, arrays and unions.
ghost use Rattle.std.specs.Prelude.{◌≡◌, ◌<◌, ◌≤◌, ◌*◌, ◌+◌, ◌^◌, ℕ, false, not, ◌&&◌, ◌||◌, ◌==◌, count_ones, nat_lt, if◌then◌else◌};
ghost use Rattle.mr_layout.specs.Sizes.{size_of};
ghost use Rattle.mr_base.specs.Pairs.{is_meeting};
ghost use Rattle.mr_layout.specs.Rules.{is_align, is_past, meets_any, is_overlapping, is_chunk_past, is_rising, is_rising_after, meets_chunk, is_chunk_overlapping, is_covered, are_covered, tuple_rules, ref_rules, array_rules, union_rules};

use crate::alike::{Room, is_chunk_overlapping, is_overlapping};
use crate::bytes::{in_chunk, used};
use crate::gaps::are_in_chunks;
use crate::sizes::size;
use mr_ast::{MAX_ALIGN, MAX_SIZE, Rule, Ty};
use mr_base::ranges_meet;

const MAX_POINTEE: u64 = 0x7fff_ffff_ffff_ffff;

/// Whether a number is an alignment: a power of two of at most 4,096.
pub fn is_align(n: u64) -> bool
    ensures { result ≡ is_align n }
{
    n.count_ones() == 1 && n <= MAX_ALIGN
}

// Whether the range from a start passes an end.
pub(crate) fn passes(start: u64, len: u64, end: u64) -> bool
    ensures { result ≡ nat_lt end (start + len) }
{
    match start.checked_add(len) {
        Some(stop) => end < stop,
        None => true,
    }
}

fn field_passes(start: u64, t: &Ty, end: u64) -> bool
    requires { end < 2 ^ 63 }
    ensures { result ≡ nat_lt end (start + size_of t.now) }
{
    match size(t) {
        Some(len) => passes(start, len, end),
        None => true,
    }
}

fn is_past(size: u64, fields: &[(u64, Ty)]) -> bool
    requires { size < 2 ^ 63 }
    ensures { result ≡ is_past size fields.now }
{
    for field in fields {
        if field_passes(field.0, &field.1, size) {
            return true;
        }
    }
    false
}

fn meets_any(start: u64, len: u64, fields: &[(u64, Ty)]) -> bool
    requires { start + len < 2 ^ 63 }
    ensures { result ≡ meets_any start len fields.now }
{
    for field in fields {
        if field_meets(start, len, field.0, &field.1) {
            return true;
        }
    }
    false
}

fn field_meets(start: u64, len: u64, at: u64, t: &Ty) -> bool
    requires { start + len < 2 ^ 63 }
    ensures { result ≡ is_meeting start len at (size_of t.now) }
{
    match size(t) {
        Some(count) => ranges_meet(start, len, at, count),
        None => 0 < len && at < start + len,
    }
}

pub(crate) fn are_overlapping(end: u64, fields: &[(u64, Ty)]) -> bool
    requires small { end < 2 ^ 63 }
    requires inside { is_past end fields.now ≡ false }
    ensures { result ≡ is_overlapping fields.now }
{
    for i in 0..fields.len() {
        let field = &fields[i];
        if part_meets(end, field.0, &field.1, &fields[i + 1..]) {
            return true;
        }
    }
    false
}

fn part_meets(end: u64, start: u64, t: &Ty, fields: &[(u64, Ty)]) -> bool
    requires small { end < 2 ^ 63 }
    requires inside { start + size_of t.now ≤ end }
    ensures { result ≡ meets_any start (size_of t.now) fields.now }
{
    match size(t) {
        Some(len) => meets_any(start, len, fields),
        None => false,
    }
}

// The first broken rule of a tuple, whose fields break none.
#[tactic(auto, unfolding(crate::specs::Rules::tuple_rules))]
pub(crate) fn tuple_rules(room: Room, size: u64, align: u64, fields: &[(u64, Ty)]) -> Option<Rule>
    ensures { result ≡ tuple_rules size align fields.now }
{
    if size > MAX_SIZE {
        return Some(Rule::TypeSize);
    }
    if !is_align(align) {
        return Some(Rule::TypeAlign);
    }
    if is_past(size, fields) {
        return Some(Rule::FieldOutside);
    }
    if is_overlapping(room, size, fields) {
        return Some(Rule::FieldOverlap);
    }
    if align == 0 || size % align != 0 {
        return Some(Rule::SizeMultiple);
    }
    None
}

// The first broken rule of a reference.
#[tactic(auto, unfolding(crate::specs::Rules::ref_rules))]
pub(crate) fn ref_rules(size: u64, align: u64) -> Option<Rule>
    ensures { result ≡ ref_rules size align }
{
    if size > MAX_POINTEE {
        return Some(Rule::TypeSize);
    }
    if !is_align(align) {
        return Some(Rule::TypeAlign);
    }
    None
}

// The first broken rule of an array, whose element breaks none.
#[tactic(auto, unfolding(crate::specs::Rules::array_rules))]
pub(crate) fn array_rules(count: u64, elem: &Ty) -> Option<Rule>
    ensures { result ≡ array_rules count elem.now }
{
    if count > MAX_SIZE || is_large_array(count, size(elem)) {
        return Some(Rule::TypeSize);
    }
    None
}

fn is_large_array(count: u64, elem: Option<u64>) -> bool
    requires { count ≤ 2 ^ 20 }
    ensures { (n : ℕ) → elem ≡ (if nat_lt n (2 ^ 63) then Some n else None) → result ≡ nat_lt (2 ^ 20) (count * n) }
{
    if count == 0 {
        return false;
    }
    match elem {
        None => true,
        Some(one) => match count.checked_mul(one) {
            None => true,
            Some(all) => all > MAX_SIZE,
        },
    }
}

fn is_chunk_past(size: u64, chunks: &[(u64, u64)]) -> bool
    ensures { result ≡ is_chunk_past size chunks.now }
{
    for chunk in chunks {
        if passes(chunk.0, chunk.1, size) {
            return true;
        }
    }
    false
}

fn is_rising(chunks: &[(u64, u64)]) -> bool
    ensures { result ≡ is_rising chunks.now }
{
    match chunks {
        [] => true,
        [first, rest @ ..] => is_rising_after(first.0, rest),
    }
}

fn is_rising_after(start: u64, chunks: &[(u64, u64)]) -> bool
    ensures { result ≡ is_rising_after start chunks.now }
{
    let mut at = start;
    for chunk in chunks {
        if chunk.0 <= at {
            return false;
        }
        at = chunk.0;
    }
    true
}

fn meets_chunk(start: u64, len: u64, chunks: &[(u64, u64)]) -> bool
    ensures { result ≡ meets_chunk start len chunks.now }
{
    for chunk in chunks {
        if ranges_meet(start, len, chunk.0, chunk.1) {
            return true;
        }
    }
    false
}

pub(crate) fn are_chunks_overlapping(chunks: &[(u64, u64)]) -> bool
    ensures { result ≡ is_chunk_overlapping chunks.now }
{
    for i in 0..chunks.len() {
        let chunk = chunks[i];
        if meets_chunk(chunk.0, chunk.1, &chunks[i + 1..]) {
            return true;
        }
    }
    false
}

fn is_covered(start: u64, t: &Ty, chunks: &[(u64, u64)], len: u64) -> bool
    requires { start + len < 2 ^ 63 }
    ensures { result ≡ is_covered start t.now chunks.now len }
{
    let mut i = len;
    while i > 0 {
        i -= 1;
        if used(t, i) && !in_chunk(chunks, start + i) {
            return false;
        }
    }
    true
}

fn field_covered(end: u64, start: u64, t: &Ty, chunks: &[(u64, u64)]) -> bool
    requires small { end < 2 ^ 63 }
    requires inside { start + size_of t.now ≤ end }
    ensures { result ≡ is_covered start t.now chunks.now (size_of t.now) }
{
    match size(t) {
        Some(len) => is_covered(start, t, chunks, len),
        None => false,
    }
}

pub(crate) fn are_covered(end: u64, fields: &[(u64, Ty)], chunks: &[(u64, u64)]) -> bool
    requires small { end < 2 ^ 63 }
    requires inside { is_past end fields.now ≡ false }
    ensures { result ≡ are_covered fields.now chunks.now }
{
    for field in fields {
        if !field_covered(end, field.0, &field.1, chunks) {
            return false;
        }
    }
    true
}

// The first broken rule of a union, whose fields break none.
#[tactic(auto, unfolding(crate::specs::Rules::union_rules))]
pub(crate) fn union_rules(
    room: Room,
    size: u64,
    align: u64,
    fields: &[(u64, Ty)],
    chunks: &[(u64, u64)],
) -> Option<Rule>
    ensures { result ≡ union_rules size align fields.now chunks.now }
{
    if size > MAX_SIZE {
        return Some(Rule::TypeSize);
    }
    if !is_align(align) {
        return Some(Rule::TypeAlign);
    }
    if is_past(size, fields) || is_chunk_past(size, chunks) {
        return Some(Rule::FieldOutside);
    }
    if align == 0 || size % align != 0 {
        return Some(Rule::SizeMultiple);
    }
    if !is_rising(chunks)
        || is_chunk_overlapping(room, chunks)
        || !are_in_chunks(room, size, fields, chunks)
    {
        return Some(Rule::UnionChunk);
    }
    None
}
