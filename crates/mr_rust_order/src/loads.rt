//! Which atomic stores an atomic load reads, byte by byte, by the rows. (C++20, [intro.races].)

ghost use Rattle.std.specs.Prelude.{◌≡◌, ℕ, ◌+◌, ◌<◌, ◌≤◌, ◌^◌, IsTrue, OnOk, length};
ghost use Rattle.mr_rust_order.specs.Loads.{AreFoundAt, AreJoined, AreMet, IsLatestStore, IsLoadedBy, IsReadOf};
ghost use Rattle.mr_rust_order.specs.Loads.{counts as does_count, is_load as is_a_load, takes as does_take};
ghost use Rattle.mr_rust_order.specs.Marks.{AreMarked, IsListed};
ghost use Rattle.mr_rust_order.specs.Memos.{AreMemos};
ghost use Rattle.mr_rust_order.specs.Order.{has_byte as has_the_byte};
ghost use Rattle.mr_rust_order.specs.Rows.{AreShort, IsTop, IsTopWith, Passes, row_at as is_row_at};

use crate::clock::Clock;
use crate::index::Index;
use crate::memos::{Memo, memo_at, rows_met};
use crate::rows::{Row, row_at};
use mr_base::Access;
use mr_event::{Footprint, OutOfMemory};

// Whether the byte at an address is one of those of an access.
fn has_byte(access: Access, byte: u128) -> bool
    ensures { result ≡ has_the_byte access byte }
{
    u128::from(access.addr) <= byte && byte < u128::from(access.addr) + u128::from(access.len)
}

// Whether an access stores to a byte: in any way, or not atomically.
fn counts(access: Access, byte: u128, every: bool) -> bool
    ensures { result ≡ does_count every access byte }
{
    access.store && (every || !access.atomic) && has_byte(access, byte)
}

// The greater one of a number and the one behind the step of a row, if the row's access counts.
fn later(rows: &[Row], x: usize, byte: u128, every: bool, latest: usize) -> usize
    requires { AreShort rows.now }
    ensures { IsTopWith rows.now (λ r. does_count every r.range byte) x latest result }
{
    if x >= rows.len() {
        return latest;
    }
    let row = row_at(rows, x);
    if !counts(row.range, byte, every) {
        return latest;
    }
    latest.max(row.last + 1)
}

// One more than the greatest step in the rows that stores to a byte: in any way, or not atomically. 0 if there is none.
fn latest_at(rows: &[Row], found: &[usize], byte: u128, every: bool) -> usize
    requires short { AreShort rows.now }
    requires found { AreFoundAt rows.now byte found.now }
    ensures { IsTop rows.now (Passes rows.now (λ r. does_count every r.range byte)) result }
{
    let mut latest = 0;
    for z in 0..found.len() {
        latest = later(rows, found[z], byte, every, latest);
    }
    latest
}

// Whether a row has an atomic store to a byte, of the step right before a number.
fn takes(row: &Row, byte: u128, latest: usize) -> bool
    requires { row.now.last + 1 < 2 ^ 64 }
    ensures { result ≡ does_take row.now byte latest }
{
    let range = row.range;
    range.store && range.atomic && has_byte(range, byte) && row.last + 1 == latest
}

// Raises a clock to that of a row, if it has an atomic store to a byte, of the step right before a number.
fn take(
    rows: &[Row],
    x: usize,
    byte: u128,
    latest: usize,
    clock: &mut Clock,
) -> Result<(), OutOfMemory>
    requires { AreShort rows.now }
    ensures { OnOk result
        (AreJoined rows.now (λ y. (y ≡ x) × Passes rows.now (λ r. does_take r byte latest) y) clock.old clock.new) }
{
    if x >= rows.len() {
        return Ok(());
    }
    let row = row_at(rows, x);
    if !takes(row, byte, latest) {
        return Ok(());
    }
    clock.join(&row.clock)
}

// Raises a clock to those of the rows that have an atomic store to a byte, of the step right before a number.
fn take_all(
    rows: &[Row],
    found: &[usize],
    byte: u128,
    latest: usize,
    clock: &mut Clock,
) -> Result<(), OutOfMemory>
    requires short { AreShort rows.now }
    requires found { AreFoundAt rows.now byte found.now }
    ensures { OnOk result (AreJoined rows.now (Passes rows.now (λ r. does_take r byte latest)) clock.old clock.new) }
{
    for z in 0..found.len() {
        take(rows, found[z], byte, latest, clock)?;
    }
    Ok(())
}

// Raises a clock to that of the latest step that stored to a byte, if it did so by atomic stores alone.
fn read_at(rows: &[Row], found: &[usize], byte: u128, clock: &mut Clock) -> Result<(), OutOfMemory>
    requires short { AreShort rows.now }
    requires found { AreFoundAt rows.now byte found.now }
    ensures { OnOk result (AreJoined rows.now (IsLatestStore rows.now byte) clock.old clock.new) }
{
    let latest = latest_at(rows, found, byte, true);
    let plain = latest_at(rows, found, byte, false);
    if plain >= latest {
        return Ok(());
    }
    take_all(rows, found, byte, latest, clock)
}

// The lesser one of a number and a border, if the border lies above a byte.
fn nearer(border: u128, byte: u128, next: u128) -> u128
    requires { byte < next }
    ensures above { byte < result }
    ensures below { result ≤ next }
    ensures here { byte < border → result ≤ border }
{
    if byte < border && border < next {
        border
    } else {
        next
    }
}

// The nearest border of a row's range above a byte, if it is nearer than a number.
fn row_border(rows: &[Row], x: usize, byte: u128, next: u128) -> u128
    requires { byte < next }
    ensures above { byte < result }
    ensures below { result ≤ next }
    ensures same { (b : ℕ) → x < length rows.now → byte ≤ b → b < result
        → has_the_byte (is_row_at rows.now x).range b ≡ has_the_byte (is_row_at rows.now x).range byte }
{
    if x >= rows.len() {
        return next;
    }
    let row = row_at(rows, x);
    let first = u128::from(row.range.addr);
    let end = first + u128::from(row.range.len);
    nearer(first, byte, nearer(end, byte, next))
}

// The nearest border of a range above a byte, up to an end: up to there each byte belongs to the same ranges.
fn next_border(rows: &[Row], found: &[usize], byte: u128, end: u128) -> u128
    requires { byte < end }
    ensures above { byte < result }
    ensures below { result ≤ end }
    ensures same { (b x : ℕ) → x < length rows.now → IsListed found.now x → byte ≤ b → b < result
        → has_the_byte (is_row_at rows.now x).range b ≡ has_the_byte (is_row_at rows.now x).range byte }
{
    let mut next = end;
    for z in 0..found.len() {
        next = row_border(rows, found[z], byte, next);
    }
    next
}

// Raises a clock to those of the steps whose atomic stores to some byte of an access are the latest ones to it.
fn read_bytes(
    rows: &[Row],
    found: &[usize],
    access: Access,
    clock: &mut Clock,
) -> Result<(), OutOfMemory>
    requires short { AreShort rows.now }
    requires found { AreMet rows.now access found.now }
    ensures { OnOk result (AreJoined rows.now
        (λ x. (b : ℕ) × IsTrue (has_the_byte access b) × IsLatestStore rows.now b x) clock.old clock.new) }
{
    let end = u128::from(access.addr) + u128::from(access.len);
    let mut byte = u128::from(access.addr);
    while byte < end {
        read_at(rows, found, byte, clock)?;
        byte = next_border(rows, found, byte, end);
    }
    Ok(())
}

// Whether an access is an atomic load.
fn is_load(access: Access) -> bool
    ensures { result ≡ is_a_load access }
{
    !access.store && access.atomic
}

// The same of an access of a step, if it is an atomic load.
fn read_access(
    index: &Index,
    rows: &[Row],
    access: Access,
    memos: &mut Vec<Memo>,
    clock: &mut Clock,
) -> Result<(), OutOfMemory>
    requires short { AreShort rows.now }
    requires marked { AreMarked index.now.shelves.items index.now.marks.keys rows.now }
    requires memos { AreMemos rows.now memos.old.items }
    ensures memos { OnOk result (AreMemos rows.now memos.new.items) }
    ensures joined { OnOk result (AreJoined rows.now (λ x. IsLoadedBy rows.now x access) clock.old clock.new) }
{
    if !is_load(access) {
        return Ok(());
    }
    let slot = rows_met(index, rows, memos, access)?;
    let memo = memo_at(memos.as_slice(), slot);
    read_bytes(rows, memo.found.as_slice(), access, clock)
}

/// Raises a clock to those of the steps whose atomic stores a step reads.
pub(crate) fn read_all(
    index: &Index,
    rows: &[Row],
    step: &Footprint,
    memos: &mut Vec<Memo>,
    clock: &mut Clock,
) -> Result<(), OutOfMemory>
    requires short { AreShort rows.now }
    requires marked { AreMarked index.now.shelves.items index.now.marks.keys rows.now }
    requires memos { AreMemos rows.now memos.old.items }
    ensures memos { OnOk result (AreMemos rows.now memos.new.items) }
    ensures joined { OnOk result (AreJoined rows.now (IsReadOf rows.now step.now.accesses) clock.old clock.new) }
{
    let accesses = step.accesses();
    for y in 0..accesses.len() {
        read_access(index, rows, accesses[y], memos, clock)?;
    }
    Ok(())
}
