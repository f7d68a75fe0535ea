//! Whether a clock knows the latest steps of rows, or all steps there that an edge may lead from.

ghost use Rattle.std.specs.Prelude.{◌≡◌, ◌≢◌, ℕ, ◌<◌, IsFalse, IsTrue, false, length, slice_index};
ghost use Rattle.mr_event.specs.Order.{thread_at};
ghost use Rattle.mr_clocks.specs.Clocks.{IsPart};
ghost use Rattle.mr_clocks.specs.Rows.{ArePlacesKnown, AreRows, IsPlaceKnown, IsPlaceSeen, row_at};

use crate::clock::Clock;
use crate::rows::{Link, Row, is_known, may_lead, names_thread_of};
use mr_event::Footprint;

/// How a clock stands to rows that a step asks: whether it knows each step there from which an edge leads to that step,
/// and whether it knows the latest step of each row.
#[derive(Clone, Copy)]
pub(crate) struct Standing {
    pub keeps: bool,
    pub settled: bool,
}

/// Whether both hold.
pub(crate) fn is_both(one: bool, other: bool) -> bool
    ensures one { IsTrue result → IsTrue one }
    ensures other { IsTrue result → IsTrue other }
{
    one && other
}

/// How a clock stands that knows too little.
pub(crate) fn no_standing() -> Standing
    ensures keeps { result.keeps ≡ false }
    ensures settled { result.settled ≡ false }
{
    Standing {
        keeps: false,
        settled: false,
    }
}

/// Whether a clock knows the latest step of the row at a place, or it is of j's thread, or there is none.
pub(crate) fn is_latest_known(
    run: &[Footprint],
    clock: &Clock,
    rows: &[Row],
    links: &[Link],
    x: usize,
    j: usize,
) -> bool
    requires within { j < length run.now }
    requires rows { AreRows run.now j rows.now links.now }
    ensures known { IsTrue result → IsPlaceKnown run.now rows.now links.now x clock.now j }
    ensures inside { IsFalse result → x < length rows.now }
    ensures some { IsFalse result → 0 < (row_at rows.now x).last }
    ensures apart { IsFalse result → (row_at rows.now x).thread ≢ thread_at run.now j }
{
    if x >= rows.len() {
        return true;
    }
    let row = rows[x];
    if row.last == 0 {
        return true;
    }
    let link = links[row.last as usize - 1];
    if is_known(clock, row, link) {
        return true;
    }
    names_thread_of(run, row, j)
}

/// The same of the rows at some places.
pub(crate) fn are_latest_known(
    run: &[Footprint],
    clock: &Clock,
    rows: &[Row],
    links: &[Link],
    found: &[usize],
    j: usize,
) -> bool
    requires within { j < length run.now }
    requires rows { AreRows run.now j rows.now links.now }
    ensures { IsTrue result → ArePlacesKnown run.now rows.now links.now found.now clock.now j }
{
    for y in 0..found.len() {
        if !is_latest_known(run, clock, rows, links, found[y], j) {
            return false;
        }
    }
    true
}

/// Whether a clock knows each step from which an edge leads to `j`, of the row at a place.
pub(crate) fn is_place_known(
    run: &[Footprint],
    clock: &Clock,
    rows: &[Row],
    links: &[Link],
    x: usize,
    j: usize,
) -> bool
    requires within { j < length run.now }
    requires rows { AreRows run.now j rows.now links.now }
    requires part { IsPart run.now clock.now j }
    ensures seen { IsTrue result → IsPlaceSeen run.now rows.now links.now x clock.now j }
    ensures inside { IsFalse result → x < length rows.now }
{
    if is_latest_known(run, clock, rows, links, x, j) {
        return true;
    }
    let row = rows[x];
    !may_lead(run, row, j)
}

// How a clock stands to the row at a place, which step `j` asks.
fn standing_at(
    run: &[Footprint],
    clock: &Clock,
    rows: &[Row],
    links: &[Link],
    x: usize,
    j: usize,
) -> Standing
    requires within { j < length run.now }
    requires rows { AreRows run.now j rows.now links.now }
    requires part { IsPart run.now clock.now j }
    ensures seen { IsTrue result.keeps → IsPlaceSeen run.now rows.now links.now x clock.now j }
    ensures known { IsTrue result.settled → IsPlaceKnown run.now rows.now links.now x clock.now j }
{
    if is_latest_known(run, clock, rows, links, x, j) {
        return Standing {
            keeps: true,
            settled: true,
        };
    }
    let row = rows[x];
    Standing {
        keeps: !may_lead(run, row, j),
        settled: false,
    }
}

/// How a clock stands to the rows at some places, which step `j` asks.
pub(crate) fn standing_to(
    run: &[Footprint],
    clock: &Clock,
    rows: &[Row],
    links: &[Link],
    found: &[usize],
    j: usize,
) -> Standing
    requires within { j < length run.now }
    requires rows { AreRows run.now j rows.now links.now }
    requires part { IsPart run.now clock.now j }
    ensures seen { IsTrue result.keeps → (y : ℕ) → y < length found.now
        → IsPlaceSeen run.now rows.now links.now (slice_index found.now y) clock.now j }
    ensures known { IsTrue result.settled → ArePlacesKnown run.now rows.now links.now found.now clock.now j }
{
    let mut settled = true;
    for y in 0..found.len() {
        let here = standing_at(run, clock, rows, links, found[y], j);
        if !here.keeps {
            return no_standing();
        }
        settled = is_both(settled, here.settled);
    }
    Standing {
        keeps: true,
        settled,
    }
}
