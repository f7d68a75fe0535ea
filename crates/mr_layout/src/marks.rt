//! Tables with a number for each byte, which is 0 where the byte bears no mark: of the bytes in no chunk, and of a row
//! of elements, folded to one element.
ghost use Rattle.std.specs.Prelude.{◌≡◌, ◌<◌, ◌≤◌, ◌+◌, ◌-◌, ◌*◌, ◌%◌, ℕ, false, length, max, not, slice_index, take, drop, replicate, IfOk};
ghost use Rattle.mr_layout.specs.Marks.{every, is_mark, is_marked, is_run_marked};
ghost use Rattle.mr_layout.specs.Rules.{is_chunk_past};
ghost use Rattle.mr_layout.specs.Used.{Use, is_in_chunk};

use mr_ast::OutOfMemory;
use std::alloc::Global;

// A row of shorter elements is folded to so many of them before it is folded to one: more bytes at once are faster.
const WIDE: u64 = 256;

/// The first bytes of a table.
pub(crate) fn first(table: &[u8], len: u64) -> &[u8]
    ensures bytes { result.now ≡ take len table.now }
    ensures few { length result.now ≤ len }
{
    if len < table.len() as u64 {
        &table[..len as usize]
    } else {
        table
    }
}

/// The bytes of a table from an offset on.
pub(crate) fn behind(table: &[u8], start: u64) -> &[u8]
    ensures bytes { result.now ≡ drop start table.now }
    ensures left { length result.now ≡ length table.now - start }
{
    if start < table.len() as u64 {
        &table[start as usize..]
    } else {
        &table[table.len()..]
    }
}

/// Whether a byte of a table bears a mark.
pub(crate) fn is_some(table: &[u8]) -> bool
    ensures { result ≡ is_marked every table.now }
{
    let mut most: u8 = 0;
    for byte in table {
        most = most.max(*byte);
    }
    most > 0
}

/// Whether one of some bytes in a row bears a mark.
pub(crate) fn is_run_marked(start: u64, len: u64, table: &[u8]) -> bool
    ensures { result ≡ is_run_marked start len table.now }
{
    is_some(first(behind(table, start), len))
}

// Marks the bytes that are marked in another table, too.
fn mark(table: &mut [u8], other: &[u8])
    requires { length other.now ≤ length table.old }
    ensures long { length table.new ≡ length table.old }
    ensures marks { (k : ℕ) → slice_index table.new k
        ≡ max (slice_index table.old k) (slice_index other.now k) }
{
    for k in 0..other.len() {
        table[k] = table[k].max(other[k]);
    }
}

// The marks of a row, step after step, on the bytes of the first step.
fn gathered(alloc: Global, row: &[u8], step: u64) -> Result<Vec<u8>, OutOfMemory>
    requires { 0 < step }
    ensures same { IfOk result (λ all. (part : Use) (len n : ℕ) → step ≡ n * len
        → is_marked (λ at. part (at % len)) row.now ≡ is_marked (λ at. part (at % len)) all.items) }
    ensures one { IfOk result (λ all. (part : Use)
        → is_marked (λ at. part (at % step)) row.now ≡ is_marked part all.items) }
{
    let mut all = Vec::from_slice(alloc, first(row, step))?;
    let mut rest = behind(row, step);
    while !rest.is_empty() {
        mark(all.as_mut_slice(), first(rest, step));
        rest = behind(rest, step);
    }
    Ok(all)
}

/// The marks of a row of elements, on the bytes of one of them.
pub(crate) fn folded(alloc: Global, row: &[u8], len: u64) -> Result<Vec<u8>, OutOfMemory>
    requires { 0 < len }
    ensures { IfOk result (λ all. (part : Use)
        → is_marked (λ at. part (at % len)) row.now ≡ is_marked part all.items) }
{
    if WIDE <= len {
        return gathered(alloc, row, len);
    }
    let wide = gathered(alloc, row, len * WIDE)?;
    gathered(alloc, wide.as_slice(), len)
}

// A table of so many bytes, each marked.
fn all_marked(alloc: Global, len: u64) -> Result<Vec<u8>, OutOfMemory>
    ensures { IfOk result (λ table. table.items ≡ replicate len 1) }
{
    vec![in alloc; 1; len as usize]
}

// Takes the marks off some bytes in a row.
fn clear(table: &mut [u8], start: u64, len: u64)
    requires { start + len ≤ length table.old }
    ensures long { length table.new ≡ length table.old }
    ensures before { (k : ℕ) → k < start → slice_index table.new k ≡ slice_index table.old k }
    ensures inside { (k : ℕ) → start ≤ k → k < start + len → slice_index table.new k ≡ 0 }
    ensures after { (k : ℕ) → start + len ≤ k → slice_index table.new k ≡ slice_index table.old k }
{
    let stop = start + len;
    for k in start as usize..stop as usize {
        table[k] = 0;
    }
}

/// A table of so many bytes, of which those are marked that lie in no chunk.
pub(crate) fn between(
    alloc: Global,
    end: u64,
    chunks: &[(u64, u64)],
) -> Result<Vec<u8>, OutOfMemory>
    requires { is_chunk_past end chunks.now ≡ false }
    ensures long { IfOk result (λ table. length table.items ≡ end) }
    ensures marks { IfOk result (λ table. (k : ℕ) → k < end
        → is_mark table.items k ≡ not (is_in_chunk chunks.now k)) }
{
    let mut table = all_marked(alloc, end)?;
    for chunk in chunks {
        clear(table.as_mut_slice(), chunk.0, chunk.1);
    }
    Ok(table)
}
