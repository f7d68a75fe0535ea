//! Rows: for each range and kind steps that made this access, so that each other step that made it happens before one
//! of them. (FastTrack: shadow memory, epochs.)

ghost use Rattle.std.specs.Prelude.{◌≡◌, ◌∷◌, [], ◌<◌, IsTrue, OnOk, length};
ghost use Rattle.mr_rust_order.specs.Marks.{AreMarked};
ghost use Rattle.mr_rust_order.specs.Rows.{AreNoted, IsPut, is_release as has_release, row_at as is_row_at};

use crate::clock::Clock;
use crate::index::Index;
use crate::taking::place_for;
use mr_base::Access;
use mr_event::{Footprint, OutOfMemory};
use std::alloc::Global;

/// A step of a thread that made an access of a range and a kind, and, where this is an atomic store, the clock behind
/// that step.
#[derive(Drop)]
pub struct Row {
    pub range: Access,
    pub thread: u32,
    pub last: usize,
    pub clock: Clock,
}

/// The row at a place.
#[tactic(auto, using(crate::proofs::RowLaws::row_read))]
pub(crate) fn row_at(rows: &[Row], x: usize) -> &Row
    requires { x < length rows.now }
    ensures { result.now ≡ is_row_at rows.now x }
{
    &rows[x]
}

// Whether an access is an atomic store.
fn is_release(access: Access) -> bool
    ensures { result ≡ has_release access }
{
    access.store && access.atomic
}

// Makes the clock that is kept beside an access that of its step, for an atomic store.
fn keep_clock(kept: &mut Clock, access: Access, clock: &Clock) -> Result<(), OutOfMemory>
    ensures { OnOk result (IsTrue (has_release access) → kept.new ≡ clock.now) }
{
    if !is_release(access) {
        return Ok(());
    }
    kept.copy(clock)?;
    Ok(())
}

// Puts step `j` in a row, in the place of one that it knows.
fn renew(row: &mut Row, thread: u32, j: usize, clock: &Clock) -> Result<(), OutOfMemory>
    ensures range { OnOk result (row.new.range ≡ row.old.range) }
    ensures put { OnOk result (IsPut (row.old.range ∷ []) thread j clock.now row.new) }
{
    row.thread = thread;
    row.last = j;
    keep_clock(&mut row.clock, row.range, clock)?;
    Ok(())
}

// Notes an access of step `j`, in a row of its range.
fn note(
    alloc: Global,
    index: &mut Index,
    rows: &mut Vec<Row>,
    range: Access,
    thread: u32,
    j: usize,
    clock: &Clock,
) -> Result<(), OutOfMemory>
    requires { AreMarked index.old.shelves.items index.old.marks.keys rows.old.items }
    ensures marked { OnOk result (AreMarked index.new.shelves.items index.new.marks.keys rows.new.items) }
    ensures noted { OnOk result (AreNoted rows.old.items (range ∷ []) thread j clock.now rows.new.items) }
{
    let x = place_for(index, rows.as_slice(), range, thread, clock)?;
    if x < rows.len() {
        let row = &mut rows[x];
        renew(row, thread, j, clock)?;
        return Ok(());
    }
    let mut kept = Clock::new(alloc);
    keep_clock(&mut kept, range, clock)?;
    rows.push(Row {
        range,
        thread,
        last: j,
        clock: kept,
    })?;
    Ok(())
}

/// Notes the accesses of a step, which has the place `j`.
pub(crate) fn note_all(
    alloc: Global,
    index: &mut Index,
    rows: &mut Vec<Row>,
    step: &Footprint,
    j: usize,
    clock: &Clock,
) -> Result<(), OutOfMemory>
    requires { AreMarked index.old.shelves.items index.old.marks.keys rows.old.items }
    ensures marked { OnOk result (AreMarked index.new.shelves.items index.new.marks.keys rows.new.items) }
    ensures noted { OnOk result (AreNoted rows.old.items step.now.accesses step.now.thread j clock.now rows.new.items) }
{
    let accesses = step.accesses();
    for y in 0..accesses.len() {
        note(alloc, index, rows, accesses[y], step.thread(), j, clock)?;
    }
    Ok(())
}
