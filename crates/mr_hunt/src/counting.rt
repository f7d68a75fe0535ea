//! How many numbers have each kind of end, and which one is the first.
ghost use Rattle.std.specs.Prelude.{◌≡◌, ◌+◌, ◌-◌, ◌++◌, ◌∷◌, [], ◌<◌, ◌≤◌, ◌^◌, All, IfOk, OnOk, flat_map, map};
ghost use Rattle.std.specs.Prelude.{if◌then◌else◌};
ghost use Rattle.std.specs.List.{list_any};
ghost use Rattle.mr_hunt.specs.Ends.{ends_of, same_end};
ghost use Rattle.mr_hunt.specs.Table.{IsTable, counted, is_listed, joined, new_row, numbers, once, table_of};

use crate::ends::{End, same_end, shows};
use crate::seeing::ends_of;
use mr_typing::Checked;
use std::alloc::{AllocError, Global};

/// A kind of end: how many numbers have it, and the first of them.
#[derive(Clone, Copy)]
pub struct Row {
    pub end: End,
    pub count: u128,
    pub first: u64,
}

// An end joins others, if none of them is of its kind.
fn push_other(found: &mut Vec<End>, end: End) -> Result<(), AllocError>
    ensures { OnOk result (found.new.items
        ≡ found.old.items ++ (if list_any (same_end end) found.old.items then [] else end ∷ [])) }
{
    if shows(found.as_slice(), end) {
        return Ok(());
    }
    found.push(end)?;
    Ok(())
}

// Ends without those that are of the kind of an earlier one.
fn once(alloc: Global, ends: &[End]) -> Result<Vec<End>, AllocError>
    ensures { IfOk result (λ found. found.items ≡ once ends.now) }
{
    let mut found = Vec::new(alloc);
    for end in ends {
        push_other(&mut found, *end)?;
    }
    Ok(found)
}

// A row, with one more number, whose run shows these ends.
fn counted(row: Row, ends: &[End]) -> Row
    requires { row.count < 2 ^ 127 }
    ensures { result ≡ counted ends.now row }
{
    if shows(ends, row.end) {
        Row {
            end: row.end,
            count: row.count + 1,
            first: row.first,
        }
    } else {
        row
    }
}

// The same of each row.
fn each_counted(alloc: Global, rows: &[Row], ends: &[End]) -> Result<Vec<Row>, AllocError>
    requires { All (λ r. r.count < 2 ^ 127) rows.now }
    ensures { IfOk result (λ more. more.items ≡ map (counted ends.now) rows.now) }
{
    let mut more = Vec::new(alloc);
    for row in rows {
        more.push(counted(*row, ends))?;
    }
    Ok(more)
}

// Whether one of these rows is of the kind of an end.
fn is_listed(rows: &[Row], end: End) -> bool
    ensures { result ≡ is_listed rows.now end }
{
    for row in rows {
        if same_end(end, row.end) {
            return true;
        }
    }
    false
}

// A row of an end of a further number joins others, where none is listed.
fn push_new(more: &mut Vec<Row>, rows: &[Row], number: u64, end: End) -> Result<(), AllocError>
    ensures { OnOk result (more.new.items ≡ more.old.items ++ new_row rows.now number end) }
{
    if is_listed(rows, end) {
        return Ok(());
    }
    more.push(Row {
        end,
        count: 1,
        first: number,
    })?;
    Ok(())
}

// The same of each end.
fn push_each_new(
    more: &mut Vec<Row>,
    rows: &[Row],
    number: u64,
    ends: &[End],
) -> Result<(), AllocError>
    ensures { OnOk result (more.new.items ≡ more.old.items ++ flat_map (new_row rows.now number) ends.now) }
{
    for end in ends {
        push_new(more, rows, number, *end)?;
    }
    Ok(())
}

// The rows with a further number, whose run shows these ends.
fn joined(alloc: Global, rows: &[Row], ends: &[End], number: u64) -> Result<Vec<Row>, AllocError>
    requires { All (λ r. r.count < 2 ^ 127) rows.now }
    ensures { IfOk result (λ more. more.items ≡ joined rows.now ends.now number) }
{
    let mut more = each_counted(alloc, rows, ends)?;
    let each = once(alloc, ends)?;
    push_each_new(&mut more, rows, number, each.as_slice())?;
    Ok(more)
}

// The rows with a further number.
fn with_number(
    alloc: Global,
    p: &Checked,
    most: u32,
    rows: &[Row],
    number: u64,
) -> Result<Vec<Row>, AllocError>
    requires few { most ≤ 2 ^ 20 }
    requires counts { All (λ r. r.count < 2 ^ 127) rows.now }
    ensures { IfOk result (λ more. more.items ≡ joined rows.now (ends_of p.now most number) number) }
{
    let ends = ends_of(alloc, p, most, number)?;
    joined(alloc, rows, ends.as_slice(), number)
}

/// How many numbers there are from one to another.
pub fn how_many(from: u64, to: u64) -> u128
    ensures { result ≡ to + 1 - from }
{
    (u128::from(to) + 1).saturating_sub(u128::from(from))
}

/// The number that stands so far behind the first one.
pub(crate) fn number_behind(from: u64, i: u128) -> u64
    requires { from + i < 2 ^ 64 }
    ensures { result ≡ from + i }
{
    from + i as u64
}

/// The table of the numbers from one to another, whose schedules are drawn with at most so many entries. An `Err` is for
/// want of memory.
pub fn table(
    alloc: Global,
    p: &Checked,
    most: u32,
    from: u64,
    to: u64,
) -> Result<Vec<Row>, AllocError>
    requires { most ≤ 2 ^ 20 }
    ensures rows { IfOk result (λ rows. rows.items ≡ table_of (ends_of p.now most) (numbers from to)) }
    ensures says { IfOk result (λ rows. IsTable (ends_of p.now most) from to rows.items) }
{
    let mut rows = Vec::new(alloc);
    for i in 0..how_many(from, to) {
        let number = number_behind(from, i);
        let more = with_number(alloc, p, most, rows.as_slice(), number)?;
        rows = more;
    }
    Ok(rows)
}
