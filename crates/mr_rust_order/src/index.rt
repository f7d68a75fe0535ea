//! Where the rows are found: marks on shelves, in order of the addresses where their ranges begin. (FastTrack: shadow
//! memory.)

ghost use Rattle.std.specs.Prelude.{◌≡◌, ℕ, ◌<◌, ◌≤◌, ◌^◌, IfOk, IfSome, IsFalse, IsTrue, OnOk, false, length};
ghost use Rattle.mr_base.specs.Accesses.{conflicts};
ghost use Rattle.mr_base.specs.declared.access.Access.{Access};
ghost use Rattle.mr_rust_order.specs.declared.index.Mark.{Mark};
ghost use Rattle.mr_rust_order.specs.Marks.{AreKept, IsListed, IsMarked, IsOnShelf};
ghost use Rattle.mr_rust_order.specs.Marks.{has_mark, mark_of, shelf_at};

use mr_base::Access;
use mr_event::OutOfMemory;
use std::collections::BTreeSet;

/// A row, marked on a shelf at the address where its range begins, by the thread that made it.
#[derive(Clone, Copy, Debug, PartialEq, Eq, PartialOrd, Ord)]
pub struct Mark {
    pub shelf: u64,
    pub place: u64,
    pub thread: u32,
    pub row: usize,
}

/// The width of a shelf, which no range on it is longer than, and whether it has stores, and not loads alone.
#[derive(Clone, Copy, Debug, PartialEq, Eq)]
pub struct Shelf {
    pub width: u64,
    pub stores: bool,
}

/// The shelves, and the marks of the rows. The marks of a shelf have its place for a number. And places of late rows,
/// each to be looked at before it is believed; and of each row whether it is the only one of its range.
#[derive(Drop)]
pub struct Index {
    pub shelves: Vec<Shelf>,
    pub marks: BTreeSet<Mark>,
    pub places: Vec<usize>,
    pub alone: Vec<bool>,
}

// The width of the shelf of the ranges of a length.
fn width_of(len: u64) -> u64
    ensures { len ≤ result }
{
    if len <= 1 {
        1
    } else if len <= 2 {
        2
    } else if len <= 4 {
        4
    } else if len <= 8 {
        8
    } else if len <= 16 {
        16
    } else if len <= 64 {
        64
    } else if len <= 256 {
        256
    } else if len <= 1024 {
        1024
    } else if len <= 16_384 {
        16_384
    } else if len <= 1_048_576 {
        1_048_576
    } else if len <= 4_294_967_296 {
        4_294_967_296
    } else {
        u64::MAX
    }
}

fn same_shelf(a: Shelf, b: Shelf) -> bool
    ensures { IsTrue result → a ≡ b }
{
    a == b
}

// The place of a shelf among these, if it is there.
fn find_shelf(shelves: &[Shelf], shelf: Shelf) -> Option<usize>
    ensures { IfSome result (λ s. (s < length shelves.now) × (shelf_at shelves.now s ≡ shelf)) }
{
    for s in 0..shelves.len() {
        if same_shelf(shelves[s], shelf) {
            return Some(s);
        }
    }
    None
}

/// The number of the shelf of a range, which is in use from then on.
pub(crate) fn use_shelf(shelves: &mut Vec<Shelf>, range: Access) -> Result<u64, OutOfMemory>
    ensures kept { AreKept shelves.old.items shelves.new.items }
    ensures placed { IfOk result (λ s. IsOnShelf shelves.new.items range s) }
{
    let shelf = Shelf {
        width: width_of(range.len),
        stores: range.store,
    };
    if let Some(s) = find_shelf(shelves.as_slice(), shelf) {
        return Ok(s as u64);
    }
    let s = shelves.len() as u64;
    shelves.push(shelf)?;
    Ok(s)
}

// Appends the rows that are marked on a shelf, from one place to another.
fn collect(
    marks: &BTreeSet<Mark>,
    shelf: u64,
    low: u64,
    high: u64,
    found: &mut Vec<usize>,
) -> Result<(), OutOfMemory>
    requires { low ≤ high }
    ensures kept { OnOk result ((x : ℕ) → IsListed found.old.items x → IsListed found.new.items x) }
    ensures all { OnOk result ((p t x : ℕ) → low ≤ p → p ≤ high → t < 2 ^ 32 → x < 2 ^ 64
        → IsTrue (has_mark marks.now.keys (mark_of shelf p t x)) → IsListed found.new.items x) }
{
    let first = Mark {
        shelf,
        place: low,
        thread: 0,
        row: 0,
    };
    let last = Mark {
        shelf,
        place: high,
        thread: u32::MAX,
        row: usize::MAX,
    };
    for mark in marks.range(first..=last) {
        found.push(mark.row)?;
    }
    Ok(())
}

// Whether a range of a shelf may conflict with an access. Two loads don't.
fn may_conflict(shelf: Shelf, access: Access) -> bool
    ensures loads { IsFalse result → shelf.stores ≡ false }
    ensures load { IsFalse result → access.store ≡ false }
{
    shelf.stores || access.store
}

// Appends the rows of the ranges on a shelf that conflict with an access, and maybe others.
fn collect_shelf(
    index: &Index,
    s: usize,
    access: Access,
    found: &mut Vec<usize>,
) -> Result<(), OutOfMemory>
    requires { s < length index.now.shelves.items }
    ensures kept { OnOk result ((x : ℕ) → IsListed found.old.items x → IsListed found.new.items x) }
    ensures all { OnOk result ((r : Access) (t x : ℕ) → IsTrue (conflicts r access)
        → IsOnShelf index.now.shelves.items r s → t < 2 ^ 32 → x < 2 ^ 64
        → IsTrue (has_mark index.now.marks.keys (mark_of s r.addr t x)) → IsListed found.new.items x) }
{
    let shelf = index.shelves[s];
    if !may_conflict(shelf, access) {
        return Ok(());
    }
    let low = access.addr.saturating_sub(shelf.width);
    let high = access.addr.saturating_add(access.len);
    collect(&index.marks, s as u64, low, high, found)?;
    Ok(())
}

/// Finds the places of the rows whose ranges conflict with an access, and maybe others.
pub(crate) fn find_rows(
    index: &Index,
    access: Access,
    found: &mut Vec<usize>,
) -> Result<(), OutOfMemory>
    ensures { OnOk result ((r : Access) (x : ℕ) → IsTrue (conflicts r access)
        → IsMarked index.now.shelves.items index.now.marks.keys r x → IsListed found.new.items x) }
{
    found.clear();
    for s in 0..index.shelves.len() {
        collect_shelf(index, s, access, found)?;
    }
    Ok(())
}

/// Marks a new row.
pub(crate) fn mark_row(
    index: &mut Index,
    shelf: u64,
    range: Access,
    thread: u32,
    row: usize,
) -> Result<(), OutOfMemory>
    requires { IsOnShelf index.old.shelves.items range shelf }
    ensures shelves { index.new.shelves.items ≡ index.old.shelves.items }
    ensures kept { OnOk result ((m : Mark) → IsTrue (has_mark index.old.marks.keys m)
        → IsTrue (has_mark index.new.marks.keys m)) }
    ensures marked { OnOk result (IsMarked index.new.shelves.items index.new.marks.keys range row) }
{
    index.marks.insert(Mark {
        shelf,
        place: range.addr,
        thread,
        row,
    })?;
    Ok(())
}
