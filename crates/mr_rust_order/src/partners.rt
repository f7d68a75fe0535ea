//! The latest earlier step that races with a step and isn't known to its clock, by the rows.

ghost use Rattle.std.specs.Prelude.{◌≡◌, ℕ, ◌<◌, IfOk, MatchOption, OnOk};
ghost use Rattle.mr_base.specs.Accesses.{races as do_race};
ghost use Rattle.mr_rust_order.specs.Loads.{AreMet};
ghost use Rattle.mr_rust_order.specs.Marks.{AreMarked};
ghost use Rattle.mr_rust_order.specs.Memos.{AreMemos};
ghost use Rattle.mr_rust_order.specs.Partners.{HasNoPartner, IsGreatestPartner, IsPartnerBy};
ghost use Rattle.mr_rust_order.specs.Partners.{is_partner as is_a_partner};
ghost use Rattle.mr_rust_order.specs.Rows.{AreShort, IsTop, IsTopWith, Passes};

use crate::clock::Clock;
use crate::index::Index;
use crate::memos::{Memo, memo_at, rows_met};
use crate::rows::{Row, row_at};
use mr_base::{Access, ranges_meet};
use mr_event::{Footprint, OutOfMemory};

// Whether two accesses have a byte in common, one of them stores, and not both are atomic.
fn race(a: Access, b: Access) -> bool
    ensures { result ≡ do_race a b }
{
    (!a.atomic || !b.atomic) && ((a.store || b.store) && ranges_meet(a.addr, a.len, b.addr, b.len))
}

// Whether a row's access races with one of a step of another thread, whose clock doesn't know the row's step.
fn is_partner(row: &Row, thread: u32, access: Access, clock: &Clock) -> bool
    ensures { result ≡ is_a_partner thread access clock.now row.now }
{
    row.thread != thread && race(row.range, access) && clock.at(row.thread) <= row.last
}

// The greater one of a number and the one behind the step of a row, if the row is a partner.
fn better(rows: &[Row], x: usize, thread: u32, access: Access, clock: &Clock, best: usize) -> usize
    requires { AreShort rows.now }
    ensures { IsTopWith rows.now (is_a_partner thread access clock.now) x best result }
{
    if x >= rows.len() {
        return best;
    }
    let row = row_at(rows, x);
    if !is_partner(row, thread, access, clock) {
        return best;
    }
    best.max(row.last + 1)
}

// One more than the greatest step of the rows that are partners of a step by one of its accesses, or 0.
fn best_by(rows: &[Row], found: &[usize], thread: u32, access: Access, clock: &Clock) -> usize
    requires short { AreShort rows.now }
    requires found { AreMet rows.now access found.now }
    ensures { IsTop rows.now (Passes rows.now (is_a_partner thread access clock.now)) result }
{
    let mut best = 0;
    for z in 0..found.len() {
        best = better(rows, found[z], thread, access, clock, best);
    }
    best
}

// The same by all of its accesses.
fn best_of(
    index: &Index,
    rows: &[Row],
    step: &Footprint,
    clock: &Clock,
    memos: &mut Vec<Memo>,
) -> Result<usize, OutOfMemory>
    requires short { AreShort rows.now }
    requires marked { AreMarked index.now.shelves.items index.now.marks.keys rows.now }
    requires memos { AreMemos rows.now memos.old.items }
    ensures memos { OnOk result (AreMemos rows.now memos.new.items) }
    ensures top { IfOk result
        (λ n. IsTop rows.now (IsPartnerBy rows.now step.now.accesses step.now.thread clock.now) n) }
{
    let accesses = step.accesses();
    let mut best: usize = 0;
    for y in 0..accesses.len() {
        let slot = rows_met(index, rows, memos, accesses[y])?;
        let memo = memo_at(memos.as_slice(), slot);
        best = best.max(best_by(
            rows,
            memo.found.as_slice(),
            step.thread(),
            accesses[y],
            clock,
        ));
    }
    Ok(best)
}

/// The greatest step of the rows that are partners of a step, whose clock is known: of another thread, with an access
/// that races, and not under the clock.
pub(crate) fn partner_of(
    index: &Index,
    rows: &[Row],
    step: &Footprint,
    clock: &Clock,
    memos: &mut Vec<Memo>,
) -> Result<Option<usize>, OutOfMemory>
    requires short { AreShort rows.now }
    requires marked { AreMarked index.now.shelves.items index.now.marks.keys rows.now }
    requires memos { AreMemos rows.now memos.old.items }
    ensures memos { OnOk result (AreMemos rows.now memos.new.items) }
    ensures partner { IfOk result (λ o. MatchOption o (HasNoPartner rows.now step.now clock.now)
        (λ i. IsGreatestPartner rows.now step.now clock.now i)) }
{
    let best = best_of(index, rows, step, clock, memos)?;
    if best == 0 {
        return Ok(None);
    }
    Ok(Some(best - 1))
}
