//! What was found for late accesses, so that an access that is made again needs no search, unless many rows came since.

ghost use Rattle.std.specs.Prelude.{◌≡◌, ℕ, ◌+◌, ◌<◌, ◌≤◌, [], IfOk, IsTrue, OnOk, length, slice_index_or};
ghost use Rattle.mr_base.specs.Accesses.{conflicts};
ghost use Rattle.mr_rust_order.specs.declared.memos.Memo.{Memo};
ghost use Rattle.mr_rust_order.specs.Loads.{AreMet};
ghost use Rattle.mr_rust_order.specs.Marks.{AreMarked, IsListed};
ghost use Rattle.mr_rust_order.specs.Memos.{AreMemos, IsMemo};

use crate::index::{Index, find_rows};
use crate::rows::{Row, row_at};
use mr_base::{Access, ranges_meet};
use mr_event::OutOfMemory;
use std::alloc::Global;

// A memo looks at so many rows that came since, and no more.
const FEW: usize = 16;

/// How many memos there are.
pub(crate) const MEMOS: usize = 1024;

// By what the numbers of addresses are spread, and the width of what is then left of them.
const SPREAD: u64 = 0x9e37_79b9_7f4a_7c15;

const WIDTH: u64 = 0x0040_0000_0000_0000;

/// The rows that conflict with an access, and maybe others, among the first `count` rows.
#[derive(Drop)]
pub struct Memo {
    pub access: Access,
    pub count: usize,
    pub found: Vec<usize>,
}

/// Memos of no rows.
pub(crate) fn no_memos(alloc: Global) -> Result<Vec<Memo>, OutOfMemory>
    ensures { IfOk result (λ v. AreMemos [] v.items) }
{
    let mut memos = Vec::new(alloc);
    for k in 0..MEMOS {
        memos.push(Memo {
            access: Access {
                store: false,
                atomic: false,
                addr: k as u64,
                len: 0,
            },
            count: 0,
            found: Vec::new(alloc),
        })?;
    }
    Ok(memos)
}

/// A number by which accesses mostly differ, of threads or of none.
pub(crate) fn spread(access: Access, thread: u32) -> usize
    ensures { result < 1024 }
{
    let kind = u64::from(access.store)
        .wrapping_mul(2)
        .wrapping_add(u64::from(access.atomic));
    let part = u64::from(thread)
        .wrapping_mul(4)
        .wrapping_add(kind)
        .wrapping_mul(SPREAD);
    (access.addr.wrapping_add(part).wrapping_mul(SPREAD) / WIDTH) as usize
}

fn same_access(a: Access, b: Access) -> bool
    ensures { IsTrue result → a ≡ b }
{
    a == b
}

// Whether two accesses have a byte in common, and one of them stores.
fn conflict(a: Access, b: Access) -> bool
    ensures { result ≡ conflicts a b }
{
    (a.store || b.store) && ranges_meet(a.addr, a.len, b.addr, b.len)
}

// Appends the place of a row, if it is wanted.
fn push_if(found: &mut Vec<usize>, x: usize, wanted: bool) -> Result<(), OutOfMemory>
    ensures kept { OnOk result ((y : ℕ) → IsListed found.old.items y → IsListed found.new.items y) }
    ensures here { OnOk result (IsTrue wanted → IsListed found.new.items x) }
{
    if !wanted {
        return Ok(());
    }
    found.push(x)?;
    Ok(())
}

// Looks at the row behind those that a memo counts.
fn count_one(rows: &[Row], memo: &mut Memo) -> Result<(), OutOfMemory>
    requires within { memo.old.count < length rows.now }
    requires memo { IsMemo rows.now memo.old }
    ensures memo { OnOk result (IsMemo rows.now memo.new) }
    ensures access { OnOk result (memo.new.access ≡ memo.old.access) }
    ensures count { OnOk result (memo.new.count ≡ memo.old.count + 1) }
{
    let x = memo.count;
    let row = row_at(rows, x);
    let wanted = conflict(row.range, memo.access);
    push_if(&mut memo.found, x, wanted)?;
    memo.count = x + 1;
    Ok(())
}

// Looks at the rows that came since.
fn catch_up(rows: &[Row], memo: &mut Memo) -> Result<(), OutOfMemory>
    requires { IsMemo rows.now memo.old }
    ensures memo { OnOk result (IsMemo rows.now memo.new) }
    ensures access { OnOk result (memo.new.access ≡ memo.old.access) }
    ensures all { OnOk result (length rows.now ≤ memo.new.count) }
{
    for k in memo.count..rows.len() {
        count_one(rows, memo)?;
    }
    Ok(())
}

// Looks the rows up anew, if the memo is of another access or many rows came since.
fn refresh(index: &Index, rows: &[Row], memo: &mut Memo, access: Access) -> Result<(), OutOfMemory>
    requires marked { AreMarked index.now.shelves.items index.now.marks.keys rows.now }
    requires memo { IsMemo rows.now memo.old }
    ensures memo { OnOk result (IsMemo rows.now memo.new) }
    ensures met { OnOk result (AreMet rows.now access memo.new.found.items) }
{
    if rows.len() - memo.count <= FEW {
        if same_access(memo.access, access) {
            catch_up(rows, memo)?;
            return Ok(());
        }
    }
    find_rows(index, access, &mut memo.found)?;
    memo.access = access;
    memo.count = rows.len();
    Ok(())
}

/// The place of a memo that has the rows that conflict with an access, and maybe others.
pub(crate) fn rows_met(
    index: &Index,
    rows: &[Row],
    memos: &mut Vec<Memo>,
    access: Access,
) -> Result<usize, OutOfMemory>
    requires marked { AreMarked index.now.shelves.items index.now.marks.keys rows.now }
    requires memos { AreMemos rows.now memos.old.items }
    ensures memos { OnOk result (AreMemos rows.now memos.new.items) }
    ensures within { IfOk result (λ s. s < length memos.new.items) }
    ensures met { IfOk result
        (λ s. (d : Memo) → AreMet rows.now access (slice_index_or memos.new.items s d).found.items) }
{
    let slot = spread(access, 0);
    let memo = &mut memos[slot];
    refresh(index, rows, memo, access)?;
    Ok(slot)
}

/// The memo at a place.
pub(crate) fn memo_at(memos: &[Memo], slot: usize) -> &Memo
    requires { slot < length memos.now }
    ensures { (d : Memo) → result.now ≡ slice_index_or memos.now slot d }
{
    &memos[slot]
}
