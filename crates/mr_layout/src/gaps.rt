//! Whether the used bytes of a union's fields lie in its chunks: those of a field meet no range between them.
ghost use Rattle.std.specs.Prelude.{◌≡◌, ◌<◌, ◌≤◌, ◌+◌, ◌^◌, true, false, IfOk, IfSome};
ghost use Rattle.mr_base.specs.Pairs.{not_empty};
ghost use Rattle.mr_layout.specs.Met.{is_in_order, end_of, gaps_from, are_outside};
ghost use Rattle.mr_layout.specs.Rules.{is_past, is_chunk_past, is_rising, are_covered};

use crate::alike::{Room, field_size, push_range};
use crate::marked::are_unmarked;
use crate::marks::between;
use crate::met::is_met;
use crate::rules::are_covered;
use mr_ast::{OutOfMemory, Ty};
use mr_base::Pair;
use std::alloc::Global;

// From so many chunks on, the bytes between them stand in a table: a search would look at each of them for each row of
// elements.
const MANY: usize = 64;

// Where what was looked at ends, once a chunk is looked at too.
fn end_of(at: u64, chunk: (u64, u64)) -> u64
    requires { chunk.0 + chunk.1 < 2 ^ 64 }
    ensures { result ≡ end_of at chunk }
{
    let stop = chunk.0 + chunk.1;
    if at < stop { stop } else { at }
}

// The ranges between chunks that begin and end before an end.
fn gaps(alloc: Global, end: u64, chunks: &[(u64, u64)]) -> Result<Vec<Pair>, OutOfMemory>
    requires { is_chunk_past end chunks.now ≡ false }
    ensures { IfOk result (λ gaps. gaps.items ≡ not_empty (gaps_from 0 end chunks.now)) }
{
    let mut gaps = Vec::new(alloc);
    let mut at = 0;
    for chunk in chunks {
        push_range(&mut gaps, at, chunk.0.saturating_sub(at))?;
        at = end_of(at, *chunk);
    }
    push_range(&mut gaps, at, end.saturating_sub(at))?;
    Ok(gaps)
}

fn are_outside(end: u64, fields: &[(u64, Ty)], ranges: &[Pair]) -> bool
    requires order { is_in_order ranges.now ≡ true }
    requires small { end < 2 ^ 63 }
    requires inside { is_past end fields.now ≡ false }
    ensures { result ≡ are_outside fields.now ranges.now }
{
    for field in fields {
        let stop = field.0 + field_size(end, field.0, &field.1);
        if is_met(&field.1, field.0 as u128, stop as u128, ranges) {
            return false;
        }
    }
    true
}

// The same by a search among the ranges between chunks, for each part of a field. Where memory is wanting, byte after
// byte is looked at.
#[tactic(auto, using(crate::proofs::GapLaws::gap_laws))]
fn are_outside_gaps(alloc: Global, end: u64, fields: &[(u64, Ty)], chunks: &[(u64, u64)]) -> bool
    requires small { end < 2 ^ 63 }
    requires inside { is_past end fields.now ≡ false }
    requires chunks_inside { is_chunk_past end chunks.now ≡ false }
    requires rising { is_rising chunks.now ≡ true }
    ensures { result ≡ are_covered fields.now chunks.now }
{
    match gaps(alloc, end, chunks) {
        Ok(gaps) => are_outside(end, fields, gaps.as_slice()),
        Err(_) => are_covered(end, fields, chunks),
    }
}

// The same by a table of the bytes in no chunk. It isn't told where memory is wanting, or where there are few chunks.
#[tactic(auto, using(crate::proofs::GapLaws::gaps_order))]
fn are_outside_table(
    alloc: Global,
    end: u64,
    fields: &[(u64, Ty)],
    chunks: &[(u64, u64)],
) -> Option<bool>
    requires small { end < 2 ^ 63 }
    requires inside { is_past end fields.now ≡ false }
    requires chunks_inside { is_chunk_past end chunks.now ≡ false }
    requires rising { is_rising chunks.now ≡ true }
    ensures { IfSome result (λ b. b ≡ are_covered fields.now chunks.now) }
{
    if chunks.len() < MANY {
        return None;
    }
    let Ok(gaps) = gaps(alloc, end, chunks) else {
        return None;
    };
    match between(alloc, end, chunks) {
        Ok(table) => are_unmarked(alloc, end, fields, gaps.as_slice(), table.as_slice()),
        Err(_) => None,
    }
}

/// Whether each used byte of each field lies in a chunk.
pub(crate) fn are_in_chunks(
    room: Room,
    end: u64,
    fields: &[(u64, Ty)],
    chunks: &[(u64, u64)],
) -> bool
    requires small { end < 2 ^ 63 }
    requires inside { is_past end fields.now ≡ false }
    requires chunks_inside { is_chunk_past end chunks.now ≡ false }
    requires rising { is_rising chunks.now ≡ true }
    ensures { result ≡ are_covered fields.now chunks.now }
{
    match room {
        Some(alloc) => match are_outside_table(alloc, end, fields, chunks) {
            Some(outside) => outside,
            None => are_outside_gaps(alloc, end, fields, chunks),
        },
        None => are_covered(end, fields, chunks),
    }
}
