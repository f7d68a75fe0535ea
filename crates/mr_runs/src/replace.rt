//! A range of the bytes replaced: the runs that it meets are put together anew, and then exchanged.
ghost use Rattle.std.specs.Prelude.{◌≡◌, ℕ, ◌+◌, ◌-◌, ◌<◌, ◌≤◌, ◌^◌, false, length, take, IfOk, OnErr, OnOk, IsTrue};
ghost use Rattle.mr_runs.specs.Exchanged.{IsBegun, IsEnded};
ghost use Rattle.mr_runs.specs.Numbers.{with_provenance, IsInPlace};
ghost use Rattle.mr_runs.specs.Pieces.{SeenPiece, bytes_of_piece, piece_len};
ghost use Rattle.mr_runs.specs.Placed.{bytes_in, total_len, Holds, IsReplaced, IsTiled};
ghost use Rattle.mr_runs.specs.Seen.{seen_piece};

use crate::OutOfMemory;
use crate::exchange::exchange;
use crate::finding::run_at;
use crate::row::{push, push_each};
use crate::run::Run;
use crate::views::Piece;
use mr_base::{AbstractByte, AllocId};
use std::alloc::Global;
use std::collections::BTreeMap;

/// Writes bytes into a run of bytes with their provenance, where the range lies in one: their numbers are put in place.
/// Answers whether it did.
pub(crate) fn write_in_place(
    runs: &mut BTreeMap<u64, Run<Vec<u8>>>,
    from: u64,
    bytes: &[AbstractByte],
) -> bool
    requires tiled { IsTiled runs.old.entries }
    requires inside { from + length bytes.now ≤ total_len runs.old.entries }
    requires some { 0 < length bytes.now }
    ensures done { IsTrue result → IsReplaced runs.old.entries runs.new.entries from bytes.now }
    ensures not_done { result ≡ false → runs.new.entries ≡ runs.old.entries }
    ensures never { result ≡ false → (begin : ℕ) (piece : SeenPiece)
        → Holds runs.old.entries from begin piece → IsInPlace piece (from - begin) bytes.now → ⊥ }
{
    let (begin, run) = run_at(runs, from);
    if !run.takes(from - begin, bytes) {
        return false;
    }
    match runs.get_mut(&begin) {
        Some(run) => run.put(from - begin, bytes),
        None => unreachable!(),
    }
    true
}

/// Writes numbers into a run of bytes with their provenance, where the range lies in one: they are put in place. Answers whether it
/// did.
pub(crate) fn put_in_place(
    runs: &mut BTreeMap<u64, Run<Vec<u8>>>,
    from: u64,
    numbers: &[u8],
    provenance: Option<AllocId>,
) -> bool
    requires tiled { IsTiled runs.old.entries }
    requires inside { from + length numbers.now ≤ total_len runs.old.entries }
    requires some { 0 < length numbers.now }
    ensures done { IsTrue result
        → IsReplaced runs.old.entries runs.new.entries from (with_provenance provenance numbers.now) }
    ensures not_done { result ≡ false → runs.new.entries ≡ runs.old.entries }
{
    let (begin, run) = run_at(runs, from);
    if !run.takes_numbers(from - begin, numbers.len() as u64, provenance) {
        return false;
    }
    match runs.get_mut(&begin) {
        Some(run) => run.put_numbers(from - begin, numbers),
        None => unreachable!(),
    }
    true
}

/// Writes bytes one by one, and makes the runs anew that the range meets.
pub(crate) fn write_each(
    alloc: Global,
    runs: &mut BTreeMap<u64, Run<Vec<u8>>>,
    len: u64,
    from: u64,
    bytes: &[AbstractByte],
) -> Result<(), OutOfMemory>
    requires tiled { IsTiled runs.old.entries }
    requires whole { total_len runs.old.entries ≡ len }
    requires inside { from + length bytes.now ≤ len }
    requires some { 0 < length bytes.now }
    ensures ok { OnOk result (IsReplaced runs.old.entries runs.new.entries from bytes.now) }
    ensures err { OnErr result (runs.new.entries ≡ runs.old.entries) }
{
    let mut row = front(alloc, runs, from)?;
    push_each(alloc, &mut row, from, bytes)?;
    let end = close(alloc, &mut row, runs, len, from + bytes.len() as u64)?;
    exchange(runs, row, end)
}

/// Puts the bytes of a piece in place of as many, and makes the runs anew that the range meets.
pub(crate) fn replace(
    alloc: Global,
    runs: &mut BTreeMap<u64, Run<Vec<u8>>>,
    len: u64,
    from: u64,
    piece: Piece<'_>,
) -> Result<(), OutOfMemory>
    requires tiled { IsTiled runs.old.entries }
    requires whole { total_len runs.old.entries ≡ len }
    requires inside { from + piece_len (seen_piece piece) ≤ len }
    requires some { 0 < piece_len (seen_piece piece) }
    ensures ok { OnOk result
        (IsReplaced runs.old.entries runs.new.entries from (bytes_of_piece (seen_piece piece.entry))) }
    ensures err { OnErr result (runs.new.entries ≡ runs.old.entries) }
{
    let mut row = front(alloc, runs, from)?;
    push(alloc, &mut row, from, piece)?;
    let end = close(alloc, &mut row, runs, len, from + piece.len())?;
    exchange(runs, row, end)
}

// A row that begins with what stands before `from` of the run that goes on or ends there.
fn front(
    alloc: Global,
    runs: &BTreeMap<u64, Run<Vec<u8>>>,
    from: u64,
) -> Result<Vec<(u64, Run<Vec<u8>>)>, OutOfMemory>
    requires tiled { IsTiled runs.now.entries }
    requires inside { from ≤ total_len runs.now.entries }
    ensures { IfOk result (λ row. IsBegun runs.now.entries row.items (take from (bytes_in runs.now.entries))) }
{
    let mut row = Vec::new(alloc);
    if from == 0 {
        return Ok(row);
    }
    let (begin, run) = run_at(runs, from - 1);
    let kept = Run::of(alloc, run.part(0, from - begin))?;
    row.push((begin, kept))?;
    Ok(row)
}

// Puts what stands from `to` on of the run there behind a row that ends there, and answers where the row then ends.
fn close(
    alloc: Global,
    row: &mut Vec<(u64, Run<Vec<u8>>)>,
    runs: &BTreeMap<u64, Run<Vec<u8>>>,
    len: u64,
    to: u64,
) -> Result<u64, OutOfMemory>
    requires tiled { IsTiled runs.now.entries }
    requires whole { total_len runs.now.entries ≡ len }
    requires inside { to ≤ len }
    requires room { total_len row.old.items ≤ to }
    ensures { IfOk result (λ end. IsEnded runs.now.entries row.old.items row.new.items to end) }
{
    if to == len {
        return Ok(to);
    }
    let (begin, run) = run_at(runs, to);
    let end = begin + run.len();
    push(alloc, row, to, run.part(to - begin, end - to))?;
    Ok(end)
}
