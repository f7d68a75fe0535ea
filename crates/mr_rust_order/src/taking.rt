//! Which row a step takes for an access: one of its range whose step it knows, or else a new one. Where all steps with an
//! access are in order, there is one row for all of them; once two are not, each thread has a row of its own.
//! (FastTrack: epochs.)

ghost use Rattle.std.specs.Prelude.{IfOk, IfSome, IsTrue, OnOk};
ghost use Rattle.mr_rust_order.specs.Marks.{AreMarked, IsPlaceFor};
ghost use Rattle.mr_rust_order.specs.Rows.{IsKnownRow};

use crate::clock::Clock;
use crate::index::{Index, Mark, mark_row, use_shelf};
use crate::memos::spread;
use crate::rows::{Row, row_at};
use mr_base::Access;
use mr_event::OutOfMemory;

// Whether a row is the only one of its range.
fn is_alone(alone: &[bool], x: usize) -> bool {
    if x >= alone.len() {
        return false;
    }
    alone[x]
}

// Whether there is a row of a range at a place, whose step a clock knows, and which a thread took last or which is the
// only one of the range.
fn may_take(
    index: &Index,
    rows: &[Row],
    x: usize,
    range: Access,
    thread: u32,
    clock: &Clock,
) -> bool
    ensures { IsTrue result → IsKnownRow rows.now x range clock.now }
{
    if x >= rows.len() {
        return false;
    }
    let row = row_at(rows, x);
    let takes = row.thread == thread || is_alone(index.alone.as_slice(), x);
    takes && row.range == range && row.last < clock.at(row.thread)
}

// The place of such a row among those that a thread has marked on a shelf, if there is one.
fn own_row(
    index: &Index,
    rows: &[Row],
    shelf: u64,
    range: Access,
    thread: u32,
    clock: &Clock,
) -> Option<usize>
    ensures { IfSome result (λ x. IsKnownRow rows.now x range clock.now) }
{
    let first = Mark {
        shelf,
        place: range.addr,
        thread,
        row: 0,
    };
    let last = Mark {
        shelf,
        place: range.addr,
        thread,
        row: usize::MAX,
    };
    for mark in index.marks.range(first..=last) {
        if may_take(index, rows, mark.row, range, thread, clock) {
            return Some(mark.row);
        }
    }
    None
}

// Whether there is a row of a range at a place.
fn is_of(rows: &[Row], x: usize, range: Access) -> bool {
    if x >= rows.len() {
        return false;
    }
    row_at(rows, x).range == range
}

// The place of the first row of a range among those that are marked on a shelf, if there is one.
fn first_row(index: &Index, rows: &[Row], shelf: u64, range: Access) -> Option<usize> {
    let first = Mark {
        shelf,
        place: range.addr,
        thread: 0,
        row: 0,
    };
    let last = Mark {
        shelf,
        place: range.addr,
        thread: u32::MAX,
        row: usize::MAX,
    };
    for mark in index.marks.range(first..=last) {
        if is_of(rows, mark.row, range) {
            return Some(mark.row);
        }
    }
    None
}

// A row, if there is one and a thread may take it.
fn if_taken(
    x: Option<usize>,
    index: &Index,
    rows: &[Row],
    range: Access,
    thread: u32,
    clock: &Clock,
) -> Option<usize>
    ensures { IfSome result (λ x. IsKnownRow rows.now x range clock.now) }
{
    let x = x?;
    if may_take(index, rows, x, range, thread, clock) {
        Some(x)
    } else {
        None
    }
}

// Notes that a row comes, beside the first one of its range, if there is one: then neither is the only one.
fn count_row(alone: &mut Vec<bool>, first: Option<usize>) -> Result<(), OutOfMemory> {
    match first {
        None => alone.push(true)?,
        Some(x) => {
            if x < alone.len() {
                alone[x] = false;
            }
            alone.push(false)?;
        }
    }
    Ok(())
}

// The row that was found last for a slot, if a thread may take it for a range.
fn late_row(
    index: &Index,
    slot: usize,
    rows: &[Row],
    range: Access,
    thread: u32,
    clock: &Clock,
) -> Option<usize>
    ensures { IfSome result (λ x. IsKnownRow rows.now x range clock.now) }
{
    if slot >= index.places.len() {
        return None;
    }
    let x = index.places[slot];
    if may_take(index, rows, x, range, thread, clock) {
        Some(x)
    } else {
        None
    }
}

// Keeps the row that was found last for a slot.
fn keep_place(places: &mut Vec<usize>, slot: usize, x: usize) {
    if slot < places.len() {
        places[slot] = x;
    }
}

/// The place of a row of a range whose step a clock knows; if none is found, the place behind all rows, which is marked
/// for the range and a thread.
pub(crate) fn place_for(
    index: &mut Index,
    rows: &[Row],
    range: Access,
    thread: u32,
    clock: &Clock,
) -> Result<usize, OutOfMemory>
    requires { AreMarked index.old.shelves.items index.old.marks.keys rows.now }
    ensures marked { OnOk result (AreMarked index.new.shelves.items index.new.marks.keys rows.now) }
    ensures place { IfOk result
        (λ x. IsPlaceFor index.new.shelves.items index.new.marks.keys rows.now range clock.now x) }
{
    let slot = spread(range, thread);
    if let Some(x) = late_row(index, slot, rows, range, thread, clock) {
        return Ok(x);
    }
    let shelf = use_shelf(&mut index.shelves, range)?;
    if let Some(x) = own_row(index, rows, shelf, range, thread, clock) {
        keep_place(&mut index.places, slot, x);
        return Ok(x);
    }
    let first = first_row(index, rows, shelf, range);
    if let Some(x) = if_taken(first, index, rows, range, thread, clock) {
        keep_place(&mut index.places, slot, x);
        return Ok(x);
    }
    count_row(&mut index.alone, first)?;
    let row = rows.len();
    mark_row(index, shelf, range, thread, row)?;
    Ok(row)
}
