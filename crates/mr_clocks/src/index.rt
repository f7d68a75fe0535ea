//! Where the rows of the keys are found: marks in shelves, by their places. (FastTrack: shadow memory.)

ghost use Rattle.std.specs.Prelude.{◌≡◌, ℕ, ◌+◌, ◌-◌, ◌<◌, ◌≤◌, ◌^◌, IfOk, IfSome, IsFalse, IsTrue, OnOk, false, length, slice_index, slice_index_or, vec_len};
ghost use Rattle.std.specs.List.{Contains, list_any};
ghost use Rattle.mr_base.specs.Accesses.{conflicts};
ghost use Rattle.mr_base.specs.declared.access.Access.{Access};
ghost use Rattle.mr_clocks.specs.declared.keys.Key.{Key};
ghost use Rattle.mr_clocks.specs.declared.keys.Key.TheVariants.{Range};
ghost use Rattle.mr_clocks.specs.declared.index.Mark.{Mark};
ghost use Rattle.mr_clocks.specs.Keys.{IsExact, is_shared as has_one_row};
ghost use Rattle.mr_clocks.specs.Marks.{AreKept, AreMarked, IsMarked, IsOnShelf, IsShelfOf, has_mark, mark_of, place_of, shelf_at, shelf_of};
ghost use Rattle.mr_clocks.specs.Rows.{AreAllAsked, IsAsked, IsGrown, IsListed, IsRowFor};
ghost use Rattle.mr_clocks.specs.Spans.{AreSpansOf, IsReached, span_at};

use crate::keys::{Key, asked_by, is_shared, same_key};
use crate::rows::{Row, is_own};
use crate::spans::{Span, Spans, chosen, may_ask, spans_of};
use mr_base::Access;
use mr_event::{Footprint, OutOfMemory};
use std::alloc::Global;
use std::collections::BTreeSet;

/// A row of a thread, marked at a place in a shelf.
#[derive(Clone, Copy, Debug, PartialEq, Eq, PartialOrd, Ord)]
pub struct Mark {
    pub shelf: u64,
    pub place: u64,
    pub thread: u32,
    pub row: usize,
}

/// The width of a shelf, which no range on it is longer than, and whether it has stores, and not loads alone.
#[derive(Clone, Copy, Debug, PartialEq, Eq)]
pub struct Shelf {
    pub width: u64,
    pub stores: bool,
}

/// The shelves of the ranges, and the marks of the rows. The marks of the ranges on a shelf have its place for a
/// number.
#[derive(Drop)]
pub(crate) struct Index {
    pub shelves: Vec<Shelf>,
    pub marks: BTreeSet<Mark>,
}

// The shelf of a key that is not a range.
fn exact_shelf(key: Key) -> u64
    ensures { result ≡ shelf_of key }
{
    match key {
        Key::Lock(_) => 0,
        Key::Creation => 1,
        Key::Spawning => 2,
        Key::Starts(_) => 3,
        Key::Joins(_) => 4,
        Key::Wakes(_) => 5,
        Key::Storing(_) => 6,
        Key::Made(a) => 2 * u64::from(a.thread) + 7,
        Key::Touched(a) => 2 * u64::from(a.thread) + 8,
        Key::Range(_) => 0,
    }
}

// The place of a key in its shelf.
fn key_place(key: Key) -> u64
    ensures { result ≡ place_of key }
{
    match key {
        Key::Lock(lock) | Key::Storing(lock) => u64::from(lock),
        Key::Creation => 0,
        Key::Spawning => 0,
        Key::Starts(thread) => u64::from(thread),
        Key::Joins(thread) => u64::from(thread),
        Key::Wakes(thread) => u64::from(thread),
        Key::Made(a) => a.count,
        Key::Touched(a) => a.count,
        Key::Range(r) => r.addr,
    }
}

// The width of the shelf of the ranges of a length.
fn width_of(len: u64) -> u64
    ensures { len ≤ result }
{
    if len <= 16 {
        16
    } else if len <= 64 {
        64
    } else if len <= 256 {
        256
    } else if len <= 1024 {
        1024
    } else if len <= 4096 {
        4096
    } else if len <= 65_536 {
        65_536
    } else if len <= 1_048_576 {
        1_048_576
    } else if len <= 4_294_967_296 {
        4_294_967_296
    } else {
        u64::MAX
    }
}

fn same_shelf(a: Shelf, b: Shelf) -> bool
    ensures { IsTrue result → a ≡ b }
{
    a == b
}

// The place of a shelf among these, if it is there.
fn find_shelf(shelves: &[Shelf], shelf: Shelf) -> Option<usize>
    ensures { IfSome result (λ s. (s < length shelves.now) × (shelf_at shelves.now s ≡ shelf)) }
{
    for s in 0..shelves.len() {
        if same_shelf(shelves[s], shelf) {
            return Some(s);
        }
    }
    None
}

// The number of the shelf of a range, which is in use from then on.
fn use_width(shelves: &mut Vec<Shelf>, range: Access) -> Result<u64, OutOfMemory>
    ensures kept { AreKept shelves.old.items shelves.new.items }
    ensures placed { IfOk result (λ s. IsOnShelf shelves.new.items range s) }
{
    let shelf = Shelf {
        width: width_of(range.len),
        stores: range.store,
    };
    if let Some(s) = find_shelf(shelves.as_slice(), shelf) {
        return Ok(s as u64);
    }
    let s = shelves.len() as u64;
    shelves.push(shelf)?;
    Ok(s)
}

// The number of the shelf into which a key belongs, which is in use from then on.
fn use_shelf(shelves: &mut Vec<Shelf>, key: Key) -> Result<u64, OutOfMemory>
    ensures kept { AreKept shelves.old.items shelves.new.items }
    ensures belongs { IfOk result (λ s. IsShelfOf shelves.new.items key s) }
{
    match key {
        Key::Range(range) => use_width(shelves, range),
        _ => Ok(exact_shelf(key)),
    }
}

/// Appends a place, if the row there may have steps of other threads and the step may ask its key.
pub(crate) fn add_asked(
    found: &mut Vec<usize>,
    rows: &[Row],
    x: usize,
    step: &Footprint,
    spans: Option<&Spans>,
) -> Result<(), OutOfMemory>
    requires { IfSome spans (λ s. AreSpansOf step.now.accesses s.now) }
    ensures kept { (z : ℕ) → IsListed found.old.items z → IsListed found.new.items z }
    ensures here { OnOk result (IsAsked step.now rows.now x → IsListed found.new.items x) }
{
    if x >= rows.len() {
        return Ok(());
    }
    let row = rows[x];
    if is_own(row, step.thread()) || !may_ask(row.key, step, spans) {
        return Ok(());
    }
    found.push(x)?;
    Ok(())
}

// Appends the rows that are marked in a shelf, from one place to another, and that the step may ask.
fn collect(
    marks: &BTreeSet<Mark>,
    rows: &[Row],
    shelf: u64,
    low: u64,
    high: u64,
    step: &Footprint,
    spans: Option<&Spans>,
    found: &mut Vec<usize>,
) -> Result<(), OutOfMemory>
    requires order { low ≤ high }
    requires spans { IfSome spans (λ s. AreSpansOf step.now.accesses s.now) }
    ensures kept { OnOk result ((x : ℕ) → IsListed found.old.items x → IsListed found.new.items x) }
    ensures all { OnOk result ((p t x : ℕ) → low ≤ p → p ≤ high → t < 2 ^ 32 → x < 2 ^ 64
        → IsTrue (has_mark marks.now.keys (mark_of shelf p t x)) → IsAsked step.now rows.now x
        → IsListed found.new.items x) }
{
    let first = Mark {
        shelf,
        place: low,
        thread: 0,
        row: 0,
    };
    let last = Mark {
        shelf,
        place: high,
        thread: u32::MAX,
        row: usize::MAX,
    };
    for mark in marks.range(first..=last) {
        add_asked(found, rows, mark.row, step, spans)?;
    }
    Ok(())
}

// Whether a range of a shelf may conflict with an access. Two loads don't.
fn may_conflict(shelf: Shelf, access: Access) -> bool
    ensures loads { IsFalse result → shelf.stores ≡ false }
    ensures load { IsFalse result → access.store ≡ false }
{
    shelf.stores || access.store
}

// Appends the rows of the ranges on a shelf that conflict with an access, if the step may ask them, and maybe others.
fn collect_shelf(
    index: &Index,
    rows: &[Row],
    s: usize,
    access: Access,
    step: &Footprint,
    found: &mut Vec<usize>,
) -> Result<(), OutOfMemory>
    requires { s < length index.now.shelves.items }
    ensures kept { OnOk result ((x : ℕ) → IsListed found.old.items x → IsListed found.new.items x) }
    ensures all { OnOk result ((r : Access) (t x : ℕ) → IsTrue (conflicts r access)
        → IsOnShelf index.now.shelves.items r s → t < 2 ^ 32 → x < 2 ^ 64
        → IsTrue (has_mark index.now.marks.keys (mark_of s r.addr t x)) → IsAsked step.now rows.now x
        → IsListed found.new.items x) }
{
    let shelf = index.shelves[s];
    if !may_conflict(shelf, access) {
        return Ok(());
    }
    let low = access.addr.saturating_sub(shelf.width);
    let high = access.addr.saturating_add(access.len);
    collect(&index.marks, rows, s as u64, low, high, step, None, found)?;
    Ok(())
}

// Appends the rows of the ranges that conflict with an access, if the step may ask them, and maybe others.
fn collect_range(
    index: &Index,
    rows: &[Row],
    access: Access,
    step: &Footprint,
    found: &mut Vec<usize>,
) -> Result<(), OutOfMemory>
    ensures kept { OnOk result ((x : ℕ) → IsListed found.old.items x → IsListed found.new.items x) }
    ensures all { OnOk result ((r : Access) (x : ℕ) → IsTrue (conflicts r access)
        → IsMarked index.now.shelves.items index.now.marks.keys (Range r) x → IsAsked step.now rows.now x
        → IsListed found.new.items x) }
{
    for s in 0..index.shelves.len() {
        collect_shelf(index, rows, s, access, step, found)?;
    }
    Ok(())
}

// Appends the rows of the ranges that the step asks, access by access.
fn collect_ranges(
    index: &Index,
    rows: &[Row],
    accesses: &[Access],
    step: &Footprint,
    found: &mut Vec<usize>,
) -> Result<(), OutOfMemory>
    ensures kept { OnOk result ((x : ℕ) → IsListed found.old.items x → IsListed found.new.items x) }
    ensures all { OnOk result ((r : Access) (x : ℕ) → IsTrue (list_any (conflicts r) accesses.now)
        → IsMarked index.now.shelves.items index.now.marks.keys (Range r) x → IsAsked step.now rows.now x
        → IsListed found.new.items x) }
{
    for i in 0..accesses.len() {
        collect_range(index, rows, accesses[i], step, found)?;
    }
    Ok(())
}

// The place behind those that the span before this one reaches.
fn place_behind(list: &[Span], i: usize) -> u64
    requires { i < length list.now }
    ensures { (p : ℕ) → p < result → (0 < i) × (p ≤ (span_at list.now (i - 1)).last) }
{
    if i == 0 {
        return 0;
    }
    list[i - 1].last.saturating_add(1)
}

// Appends the rows of a shelf at the places that a span reaches, if the span before it doesn't reach them and the step
// may ask the rows.
fn sweep_span(
    index: &Index,
    rows: &[Row],
    s: usize,
    width: u64,
    list: &[Span],
    i: usize,
    step: &Footprint,
    spans: &Spans,
    found: &mut Vec<usize>,
) -> Result<(), OutOfMemory>
    requires inside { i < length list.now }
    requires spans { AreSpansOf step.now.accesses spans.now }
    ensures kept { OnOk result ((x : ℕ) → IsListed found.old.items x → IsListed found.new.items x) }
    ensures all { OnOk result ((p : ℕ) → IsReached list.now width i p
        → (0 < i → (span_at list.now (i - 1)).last < p) → (t x : ℕ) → t < 2 ^ 32 → x < 2 ^ 64
        → IsTrue (has_mark index.now.marks.keys (mark_of s p t x)) → IsAsked step.now rows.now x
        → IsListed found.new.items x) }
{
    let span = list[i];
    let low = span.first.saturating_sub(width).max(place_behind(list, i));
    if low > span.last {
        return Ok(());
    }
    collect(
        &index.marks,
        rows,
        s as u64,
        low,
        span.last,
        step,
        Some(spans),
        found,
    )?;
    Ok(())
}

// Appends the rows of the ranges on a shelf that the step asks, by one pass over the places that its spans reach.
fn sweep_shelf(
    index: &Index,
    rows: &[Row],
    s: usize,
    step: &Footprint,
    spans: &Spans,
    found: &mut Vec<usize>,
) -> Result<(), OutOfMemory>
    requires inside { s < length index.now.shelves.items }
    requires spans { AreSpansOf step.now.accesses spans.now }
    ensures kept { OnOk result ((x : ℕ) → IsListed found.old.items x → IsListed found.new.items x) }
    ensures all { OnOk result ((r : Access) (t x : ℕ) → IsTrue (list_any (conflicts r) step.now.accesses)
        → IsOnShelf index.now.shelves.items r s → t < 2 ^ 32 → x < 2 ^ 64
        → IsTrue (has_mark index.now.marks.keys (mark_of s r.addr t x)) → IsAsked step.now rows.now x
        → IsListed found.new.items x) }
{
    let shelf = index.shelves[s];
    let list = chosen(step, spans, shelf.stores);
    for i in 0..list.len() {
        sweep_span(index, rows, s, shelf.width, list, i, step, spans, found)?;
    }
    Ok(())
}

// Appends the rows of the ranges that the step asks, shelf by shelf.
fn sweep(
    index: &Index,
    rows: &[Row],
    step: &Footprint,
    spans: &Spans,
    found: &mut Vec<usize>,
) -> Result<(), OutOfMemory>
    requires { AreSpansOf step.now.accesses spans.now }
    ensures kept { OnOk result ((x : ℕ) → IsListed found.old.items x → IsListed found.new.items x) }
    ensures all { OnOk result ((r : Access) (x : ℕ) → IsTrue (list_any (conflicts r) step.now.accesses)
        → IsMarked index.now.shelves.items index.now.marks.keys (Range r) x → IsAsked step.now rows.now x
        → IsListed found.new.items x) }
{
    for s in 0..index.shelves.len() {
        sweep_shelf(index, rows, s, step, spans, found)?;
    }
    Ok(())
}

// Appends the rows of the ranges that the step asks.
fn find_ranges(
    alloc: Global,
    index: &Index,
    rows: &[Row],
    step: &Footprint,
    found: &mut Vec<usize>,
) -> Result<(), OutOfMemory>
    ensures kept { OnOk result ((x : ℕ) → IsListed found.old.items x → IsListed found.new.items x) }
    ensures all { OnOk result ((r : Access) (x : ℕ) → IsTrue (list_any (conflicts r) step.now.accesses)
        → IsMarked index.now.shelves.items index.now.marks.keys (Range r) x → IsAsked step.now rows.now x
        → IsListed found.new.items x) }
{
    let accesses = step.accesses();
    match spans_of(alloc, accesses)? {
        Some(spans) => sweep(index, rows, step, &spans, found),
        None => collect_ranges(index, rows, accesses, step, found),
    }
}

// Appends the rows of a key that is no range, if the step may ask them.
fn collect_key(
    index: &Index,
    rows: &[Row],
    key: Key,
    step: &Footprint,
    found: &mut Vec<usize>,
) -> Result<(), OutOfMemory>
    ensures kept { OnOk result ((x : ℕ) → IsListed found.old.items x → IsListed found.new.items x) }
    ensures all { OnOk result (IsExact key → (x : ℕ) → IsMarked index.now.shelves.items index.now.marks.keys key x
        → IsAsked step.now rows.now x → IsListed found.new.items x) }
{
    let place = key_place(key);
    collect(
        &index.marks,
        rows,
        exact_shelf(key),
        place,
        place,
        step,
        None,
        found,
    )?;
    Ok(())
}

// Appends the rows of keys that are no ranges, if the step may ask them.
fn collect_keys(
    index: &Index,
    rows: &[Row],
    keys: &[Key],
    step: &Footprint,
    found: &mut Vec<usize>,
) -> Result<(), OutOfMemory>
    ensures kept { OnOk result ((x : ℕ) → IsListed found.old.items x → IsListed found.new.items x) }
    ensures all { OnOk result ((key : Key) (x : ℕ) → IsExact key → Contains keys.now key
        → IsMarked index.now.shelves.items index.now.marks.keys key x → IsAsked step.now rows.now x
        → IsListed found.new.items x) }
{
    for i in 0..keys.len() {
        collect_key(index, rows, keys[i], step, found)?;
    }
    Ok(())
}

/// The places of all rows that the step asks but those of its own thread alone, and maybe of others.
pub(crate) fn rows_asked(
    alloc: Global,
    index: &Index,
    rows: &[Row],
    step: &Footprint,
) -> Result<Vec<usize>, OutOfMemory>
    requires { AreMarked index.now.shelves.items index.now.marks.keys rows.now }
    ensures { IfOk result (λ v. AreAllAsked step.now rows.now v.items) }
{
    let mut found = Vec::new(alloc);
    let keys = asked_by(alloc, step)?;
    collect_keys(index, rows, keys.as_slice(), step, &mut found)?;
    find_ranges(alloc, index, rows, step, &mut found)?;
    Ok(found)
}

// Whether a row serves a thread: each does where the key is shared.
fn serves_thread(row: Row, key: Key, thread: u32) -> bool
    ensures { IsTrue result → has_one_row key ≡ false → row.thread ≡ thread }
{
    if is_shared(key) {
        return true;
    }
    row.thread == thread
}

// Whether there is a row of a key at a place, and of a thread where the key isn't shared.
fn is_row_for(rows: &[Row], x: usize, key: Key, thread: u32) -> bool
    ensures { IsTrue result → IsRowFor rows.now x key thread }
{
    if x >= rows.len() {
        return false;
    }
    let row = rows[x];
    serves_thread(row, key, thread) && same_key(row.key, key)
}

// The thread in the mark of a row: 0 where all threads have the key's row in common.
fn marked_thread(key: Key, thread: u32) -> u32 {
    if is_shared(key) { 0 } else { thread }
}

// The place of a row of a key and a thread among those that are marked in a shelf, if there is one.
fn row_for(marks: &BTreeSet<Mark>, rows: &[Row], shelf: u64, key: Key, thread: u32) -> Option<usize>
    ensures { IfSome result (λ x. IsRowFor rows.now x key thread) }
{
    let at = key_place(key);
    let marked = marked_thread(key, thread);
    let first = Mark {
        shelf,
        place: at,
        thread: marked,
        row: 0,
    };
    let last = Mark {
        shelf,
        place: at,
        thread: marked,
        row: usize::MAX,
    };
    for mark in marks.range(first..=last) {
        if is_row_for(rows, mark.row, key, thread) {
            return Some(mark.row);
        }
    }
    None
}

// Marks a new row.
fn mark_row(
    index: &mut Index,
    shelf: u64,
    key: Key,
    thread: u32,
    row: usize,
) -> Result<(), OutOfMemory>
    requires { IsShelfOf index.old.shelves.items key shelf }
    ensures shelves { index.new.shelves.items ≡ index.old.shelves.items }
    ensures kept { (m : Mark) → IsTrue (has_mark index.old.marks.keys m) → IsTrue (has_mark index.new.marks.keys m) }
    ensures marked { OnOk result (IsMarked index.new.shelves.items index.new.marks.keys key row) }
{
    let place = key_place(key);
    index.marks.insert(Mark {
        shelf,
        place,
        thread,
        row,
    })?;
    Ok(())
}

/// The place of a row of a key and a thread, or of the one row of a shared key, which is made where it isn't found.
pub(crate) fn place_for(
    index: &mut Index,
    rows: &mut Vec<Row>,
    key: Key,
    thread: u32,
) -> Result<usize, OutOfMemory>
    requires { AreMarked index.old.shelves.items index.old.marks.keys rows.old.items }
    ensures marked { AreMarked index.new.shelves.items index.new.marks.keys rows.new.items }
    ensures grown { IsGrown rows.old.items rows.new.items }
    ensures row { IfOk result (λ x. IsRowFor rows.new.items x key thread) }
{
    let shelf = use_shelf(&mut index.shelves, key)?;
    if let Some(x) = row_for(&index.marks, rows.as_slice(), shelf, key, thread) {
        return Ok(x);
    }
    let row = rows.len();
    mark_row(index, shelf, key, marked_thread(key, thread), row)?;
    rows.push(Row {
        key,
        thread,
        last: 0,
    })?;
    Ok(row)
}

/// The places of the rows of some keys and a thread.
pub(crate) fn places_for(
    alloc: Global,
    index: &mut Index,
    rows: &mut Vec<Row>,
    keys: &[Key],
    thread: u32,
) -> Result<Vec<usize>, OutOfMemory>
    requires { AreMarked index.old.shelves.items index.old.marks.keys rows.old.items }
    ensures marked { AreMarked index.new.shelves.items index.new.marks.keys rows.new.items }
    ensures grown { IsGrown rows.old.items rows.new.items }
    ensures many { IfOk result (λ v. vec_len v ≡ length keys.now) }
    ensures rows { IfOk result (λ v. (y : ℕ) (d : Key) → y < length keys.now
        → IsRowFor rows.new.items (slice_index v.items y) (slice_index_or keys.now y d) thread) }
{
    let mut places = Vec::new(alloc);
    for i in 0..keys.len() {
        let place = place_for(index, rows, keys[i], thread)?;
        places.push(place)?;
    }
    Ok(places)
}
