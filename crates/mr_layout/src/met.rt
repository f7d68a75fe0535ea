//! Whether ranges of bytes meet the used bytes of a type: of ranges in order, in the time of a search for each part of the type.
ghost use Rattle.std.specs.Prelude.{◌≡◌, ◌<◌, ◌≤◌, ◌+◌, ◌-◌, ◌*◌, ◌^◌, ℕ, true, nat_lt, nat_le, min, take, Bool, if◌then◌else◌};
ghost use Rattle.mr_layout.specs.Met.{is_met, is_run_met, is_field_met, is_chunk_met, is_tag_met, is_variant_met, is_row_met, is_in_order, ranges_past};
ghost use Rattle.mr_layout.specs.Used.{is_used};

use crate::sizes::{int_bytes, size};
use mr_ast::{Tag, Ty, Variant};
use mr_base::Pair;

// Where ranges end at the latest.
const MAX_END: u128 = 0x1_0000_0000_0000_0000;

// How many bytes of an element are looked at at the most.
const MAX_LEN: u128 = 0x8000_0000_0000_0000;

/// Whether each range has a byte, and ends at 2^64 or before, where the next begins, or before.
pub(crate) fn is_in_order(ranges: &[Pair]) -> bool
    ensures { result ≡ is_in_order ranges.now }
{
    let mut low = 0;
    for range in ranges {
        if range.0 < low || range.1 == 0 || range.1 > MAX_END || range.0 > MAX_END - range.1 {
            return false;
        }
        low = range.0 + range.1;
    }
    true
}

// The ranges from the first that ends behind a byte on.
fn ranges_past(ranges: &[Pair], at: u128) -> &[Pair]
    requires { is_in_order ranges.now ≡ true }
    ensures { result.now ≡ ranges_past at ranges.now }
{
    let first = ranges.partition_point(
        |range: &Pair| -> bool
            ensures { result ≡ nat_le (range.now.0 + range.now.1) at }
        { range.1 <= at && range.0 <= at - range.1 },
    );
    &ranges[first..]
}

/// Whether a byte of a run lies in one of the ranges and before the end.
pub(crate) fn is_run_met(ranges: &[Pair], start: u128, len: u64, end: u128) -> bool
    requires order { is_in_order ranges.now ≡ true }
    requires small { start < 2 ^ 66 }
    ensures { result ≡ is_run_met start len end ranges.now }
{
    let stop = end.min(start + len as u128);
    match ranges_past(ranges, start) {
        [] => false,
        [first, ..] => start < stop && first.0 < stop,
    }
}

// How many bytes of an element are looked at.
fn row_len(elem: Option<u64>) -> u128
    ensures { (n : ℕ) → elem ≡ (if nat_lt n (2 ^ 63) then Some n else None) → result ≡ min n (2 ^ 63) }
{
    match elem {
        Some(len) => len as u128,
        None => MAX_LEN,
    }
}

// Where the elements of an array stop, or what is looked at of them.
fn row_stop(count: u64, elem: Option<u64>, start: u128, end: u128) -> u128
    requires before { start < end }
    requires small { end ≤ 2 ^ 63 }
    ensures { (n : ℕ) → elem ≡ (if nat_lt n (2 ^ 63) then Some n else None) → result ≡ min end (start + count * n) }
{
    match elem {
        Some(len) => end.min(start + count as u128 * len as u128),
        None => { if count == 0 { start } else { end } }
    }
}

// What a range meets of elements in a row, as ranges of one element: a whole one, or bytes inside of one, or over the end of one.
fn pieces(len: u128, start: u128, stop: u128, range: Pair) -> ([Pair; 2], usize)
    requires some { 0 < len }
    requires thin { len ≤ 2 ^ 63 }
    requires before { start ≤ stop }
    requires small { range.0 + range.1 ≤ 2 ^ 64 }
    ensures few { result.1 ≤ 2 }
    ensures order { is_in_order (take result.1 result.0) ≡ true }
    ensures same { (part : ℕ → Bool) → is_row_met part len (range.0 - start)
        ((range.0 + range.1) - start) (stop - start) ≡ is_met part 0 len (take result.1 result.0) }
{
    let from = range.0.saturating_sub(start);
    let last = (range.0 + range.1).min(stop).saturating_sub(start);
    if last <= from {
        return ([(0, 0), (0, 0)], 0);
    }
    let bytes = last - from;
    let first = from % len;
    if len <= bytes {
        ([(0, len), (0, 0)], 1)
    } else if bytes <= len - first {
        ([(first, bytes), (0, 0)], 1)
    } else {
        ([(0, bytes - (len - first)), (first, len - first)], 2)
    }
}

/// Whether a used byte of a type that begins at an offset lies in one of the ranges and before the end.
#[cycle(met)]
#[tactic(auto, using(crate::proofs::MetLaws::met_laws))]
pub(crate) fn is_met(t: &Ty, start: u128, end: u128, ranges: &[Pair]) -> bool
    requires order { is_in_order ranges.now ≡ true }
    requires small { end ≤ 2 ^ 63 }
    ensures { result ≡ is_met (is_used t.now) start end ranges.now }
{
    if end <= start {
        return false;
    }
    match t {
        Ty::Int(i) => is_run_met(ranges, start, int_bytes(*i), end),
        Ty::Bool => is_run_met(ranges, start, 1, end),
        Ty::Raw => is_run_met(ranges, start, 8, end),
        Ty::FnPtr => is_run_met(ranges, start, 8, end),
        Ty::Ref { .. } => is_run_met(ranges, start, 8, end),
        Ty::Tuple { fields, .. } => is_field_met(fields.as_slice(), start, end, ranges),
        Ty::Array { count, elem } => {
            let len = row_len(size(elem.get()));
            let stop = row_stop(*count, size(elem.get()), start, end);
            for range in ranges_past(ranges, start) {
                if len == 0 || stop <= range.0 {
                    return false;
                }
                let pieces = pieces(len, start, stop, *range);
                if is_met(elem.get(), 0, len, &pieces.0[..pieces.1]) {
                    return true;
                }
            }
            false
        }
        Ty::Union { chunks, .. } => is_chunk_met(chunks.as_slice(), start, end, ranges),
        Ty::Enum { variants, .. } => is_variant_met(variants.as_slice(), start, end, ranges),
    }
}

#[cycle(met)]
fn is_field_met(fields: &[(u64, Ty)], start: u128, end: u128, ranges: &[Pair]) -> bool
    requires order { is_in_order ranges.now ≡ true }
    requires small { end ≤ 2 ^ 63 }
    requires before { start < end }
    ensures { result ≡ is_field_met fields.now start end ranges.now }
{
    for field in fields {
        if is_met(&field.1, start + field.0 as u128, end, ranges) {
            return true;
        }
    }
    false
}

fn is_chunk_met(chunks: &[(u64, u64)], start: u128, end: u128, ranges: &[Pair]) -> bool
    requires order { is_in_order ranges.now ≡ true }
    requires small { start < 2 ^ 64 }
    ensures { result ≡ is_chunk_met chunks.now start end ranges.now }
{
    for chunk in chunks {
        if is_run_met(ranges, start + chunk.0 as u128, chunk.1, end) {
            return true;
        }
    }
    false
}

fn is_tag_met(tags: &[Tag], start: u128, end: u128, ranges: &[Pair]) -> bool
    requires order { is_in_order ranges.now ≡ true }
    requires small { start < 2 ^ 64 }
    ensures { result ≡ is_tag_met tags.now start end ranges.now }
{
    for tag in tags {
        if is_run_met(ranges, start + tag.at as u128, int_bytes(tag.int), end) {
            return true;
        }
    }
    false
}

#[cycle(met)]
fn is_variant_met(variants: &[Variant], start: u128, end: u128, ranges: &[Pair]) -> bool
    requires order { is_in_order ranges.now ≡ true }
    requires small { end ≤ 2 ^ 63 }
    requires before { start < end }
    ensures { result ≡ is_variant_met variants.now start end ranges.now }
{
    for variant in variants {
        if is_met(&variant.ty, start, end, ranges)
            || is_tag_met(variant.tags.as_slice(), start, end, ranges)
        {
            return true;
        }
    }
    false
}
