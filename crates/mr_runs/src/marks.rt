//! The marks of bytes whose numbers are kept apart: runs that have no numbers, so that a change of marks moves none.
ghost use Rattle.std.specs.Prelude.{◌≡◌, ℕ, ◌+◌, ◌<◌, ◌≤◌, ◌^◌, List, [], ◌∷◌, ◌++◌, length, map, take, IfOk, OnErr, OnOk};
ghost use Rattle.mr_base.specs.declared.byte.AbstractByte.{AbstractByte};
ghost use Rattle.mr_runs.specs.Contents.{marked_piece};
ghost use Rattle.mr_runs.specs.Exchanged.{one_piece, IsBegun, IsEnded, IsPushed};
ghost use Rattle.mr_runs.specs.Pieces.{SeenPiece, bytes_of_piece};
ghost use Rattle.mr_runs.specs.Placed.{bytes_in, total_len, IsReplaced, IsTiled};
ghost use Rattle.mr_runs.specs.Stamped.{without_number};

use crate::OutOfMemory;
use crate::exchange::exchange;
use crate::finding::run_at;
use crate::mark::{Mark, is_same};
use crate::run::{Apart, Run};
use mr_base::AbstractByte;
use std::alloc::Global;
use std::collections::BTreeMap;

/// Gives a mark to so many bytes from a position on.
pub(crate) fn set_mark(
    alloc: Global,
    marks: &mut BTreeMap<u64, Run<Apart>>,
    len: u64,
    from: u64,
    count: u64,
    mark: Mark,
) -> Result<(), OutOfMemory>
    requires tiled { IsTiled marks.old.entries }
    requires whole { total_len marks.old.entries ≡ len }
    requires inside { from + count ≤ len }
    requires some { 0 < count }
    ensures ok { OnOk result
        (IsReplaced marks.old.entries marks.new.entries from (bytes_of_piece (marked_piece count mark))) }
    ensures err { OnErr result (marks.new.entries ≡ marks.old.entries) }
{
    let mut row = front_of(alloc, marks, from)?;
    push_mark(&mut row, from, count, mark)?;
    let end = close_at(&mut row, marks, len, from + count)?;
    exchange(marks, row, end)
}

/// Gives bytes from a position on the marks of others.
pub(crate) fn set_marks(
    alloc: Global,
    marks: &mut BTreeMap<u64, Run<Apart>>,
    len: u64,
    from: u64,
    bytes: &[AbstractByte],
) -> Result<(), OutOfMemory>
    requires tiled { IsTiled marks.old.entries }
    requires whole { total_len marks.old.entries ≡ len }
    requires inside { from + length bytes.now ≤ len }
    requires some { 0 < length bytes.now }
    ensures ok { OnOk result
        (IsReplaced marks.old.entries marks.new.entries from (map without_number bytes.now)) }
    ensures err { OnErr result (marks.new.entries ≡ marks.old.entries) }
{
    let mut row = front_of(alloc, marks, from)?;
    push_marks(&mut row, from, bytes)?;
    let end = close_at(&mut row, marks, len, from + bytes.len() as u64)?;
    exchange(marks, row, end)
}

// A row that begins with what stands before `from` of the run that goes on or ends there.
fn front_of(
    alloc: Global,
    marks: &BTreeMap<u64, Run<Apart>>,
    from: u64,
) -> Result<Vec<(u64, Run<Apart>)>, OutOfMemory>
    requires tiled { IsTiled marks.now.entries }
    requires inside { from ≤ total_len marks.now.entries }
    ensures { IfOk result (λ row. IsBegun marks.now.entries row.items (take from (bytes_in marks.now.entries))) }
{
    let mut row = Vec::new(alloc);
    if from == 0 {
        return Ok(row);
    }
    let (begin, run) = run_at(marks, from - 1);
    let (_, mark) = run.told();
    row.push((begin, Run::marked(from - begin, mark)))?;
    Ok(row)
}

// Puts so many bytes with a mark behind a row, which ends at `at`.
fn push_mark(
    row: &mut Vec<(u64, Run<Apart>)>,
    at: u64,
    count: u64,
    mark: Mark,
) -> Result<(), OutOfMemory>
    requires room { total_len row.old.items ≤ at }
    requires fits { at + count < 2 ^ 64 }
    ensures { OnOk result (IsPushed row.old.items at (marked_piece count mark) row.new.items) }
{
    let Some((begin, run)) = row.pop() else {
        return add_mark(row, at, count, mark);
    };
    let (before, own) = run.told();
    if is_same(own, mark) {
        row.push((begin, Run::marked(before + count, mark)))?;
        return Ok(());
    }
    row.push((begin, run))?;
    add_mark(row, at, count, mark)
}

// Puts so many bytes with a mark behind a row as a run of their own.
fn add_mark(
    row: &mut Vec<(u64, Run<Apart>)>,
    at: u64,
    count: u64,
    mark: Mark,
) -> Result<(), OutOfMemory>
    ensures { OnOk result (row.new.items ≡ row.old.items ++ (at, marked_piece count mark) ∷ []) }
{
    row.push((at, Run::marked(count, mark)))?;
    Ok(())
}

// Puts the marks of bytes behind a row one by one.
fn push_marks(
    row: &mut Vec<(u64, Run<Apart>)>,
    at: u64,
    bytes: &[AbstractByte],
) -> Result<(), OutOfMemory>
    requires room { total_len row.old.items ≤ at }
    requires fits { at + length bytes.now < 2 ^ 64 }
    ensures { OnOk result ((es : List (ℕ × SeenPiece)) (done : List AbstractByte)
        → IsBegun es row.old.items done → length done ≡ at
        → IsBegun es row.new.items (done ++ map without_number bytes.now)) }
{
    for (index, byte) in bytes.iter().enumerate() {
        push_mark(row, at + index as u64, 1, mark_of_byte(*byte))?;
    }
    Ok(())
}

// How a byte is marked.
fn mark_of_byte(byte: AbstractByte) -> Mark
    ensures { marked_piece 1 result ≡ one_piece (without_number byte) }
{
    match byte {
        AbstractByte::Uninit => Mark::Uninit,
        AbstractByte::Init(_, provenance) => Mark::Init(provenance),
    }
}

// Puts what stands from `to` on of the run there behind a row that ends there, and answers where the row then ends.
fn close_at(
    row: &mut Vec<(u64, Run<Apart>)>,
    marks: &BTreeMap<u64, Run<Apart>>,
    len: u64,
    to: u64,
) -> Result<u64, OutOfMemory>
    requires tiled { IsTiled marks.now.entries }
    requires whole { total_len marks.now.entries ≡ len }
    requires inside { to ≤ len }
    requires room { total_len row.old.items ≤ to }
    ensures { IfOk result (λ end. IsEnded marks.now.entries row.old.items row.new.items to end) }
{
    if to == len {
        return Ok(to);
    }
    let (begin, run) = run_at(marks, to);
    let (count, mark) = run.told();
    let end = begin + count;
    push_mark(row, to, end - to, mark)?;
    Ok(end)
}
