//! Rows: for a key and a thread the steps of the thread that are noted under the key, the latest first, and for a
//! shared key those of all threads.

ghost use Rattle.std.specs.Prelude.{◌≡◌, ◌≢◌, ℕ, ◌+◌, ◌<◌, ◌≤◌, ◌^◌, ◌↔◌, List, IfOk, IsFalse, IsTrue, OnOk, length, slice_index, vec_capacity, vec_len, true, false};
ghost use Rattle.mr_event.specs.Footprint.{Footprint};
ghost use Rattle.mr_event.specs.Order.{step_at, thread_at};
ghost use Rattle.mr_clocks.specs.declared.rows.Link.{Link};
ghost use Rattle.mr_clocks.specs.Clocks.{AreClocks, IsClockOf, IsPart, IsUnder};
ghost use Rattle.mr_clocks.specs.Keys.{asks, key_races};
ghost use Rattle.mr_clocks.specs.Rows.{AreLinks, AreLonger, ArePlaces, AreRows, HaveKeysOf, IsBelow, IsNoted, IsOwn, IsPlaceBeyond, IsPlaceSeen, IsRow, IsRowSeen, row_at};
ghost use Rattle.mr_clocks.specs.Skips.{AreSkips, IsSkip};
ghost use Rattle.mr_clocks.specs.Tracked.{IsNext, IsPartnerOr};

use crate::analysis::is_under;
use crate::clock::Clock;
use crate::following::follow_edge;
use crate::keys::{Key, is_shared, may_bind, may_race};
use crate::known::{is_latest_known, is_place_known};
use crate::order::edge;
use crate::skips::{Skip, slot_of};
use crate::walks::{Walk, no_walk, pass};
use mr_event::{Footprint, OutOfMemory, thread_at};
use std::alloc::Global;

// How many links there can be, which have numbers of 32 bits.
const MOST_LINKS: usize = 4_294_967_295;

/// The row of a key and a thread: that of its latest step where the key is shared. `last` is one more than the place of
/// its latest link, or 0.
#[derive(Clone, Copy, Debug, PartialEq, Eq)]
pub struct Row {
    pub key: Key,
    pub thread: u32,
    pub last: u32,
}

/// A step in a row, and one more than the place of the link to the step before it there, or 0.
#[derive(Clone, Copy, Debug, PartialEq, Eq)]
pub struct Link {
    pub step: u32,
    pub before: u32,
}

/// Room for some more links.
pub(crate) fn reserve_links(links: &mut Vec<Link>, more: usize) -> Result<(), OutOfMemory>
    ensures same { links.new.items ≡ links.old.items }
    ensures room { OnOk result (vec_len links.new + more ≤ vec_capacity links.new) }
    ensures small { OnOk result (vec_len links.new + more < 2 ^ 32) }
{
    if links.len() > MOST_LINKS || more > MOST_LINKS - links.len() {
        return Err(OutOfMemory);
    }
    links.reserve(more)
}

/// Whether all steps of a row are of a thread.
pub(crate) fn is_own(row: Row, thread: u32) -> bool
    ensures { IsTrue result → IsOwn row thread }
{
    row.thread == thread && !is_shared(row.key)
}

/// Whether a row names the thread of step `j`.
pub(crate) fn names_thread_of(run: &[Footprint], row: Row, j: usize) -> bool
    requires { j < length run.now }
    ensures { IsTrue result ↔ row.thread ≡ thread_at run.now j }
{
    row.thread == thread_at(run, j)
}

/// Whether a clock knows the step that the latest link of a row keeps.
pub(crate) fn is_known(clock: &Clock, row: Row, link: Link) -> bool
    ensures { IsTrue result ↔ link.step < slice_index clock.now row.thread }
{
    link.step < clock.at(row.thread)
}

// Whether two steps are of one thread.
fn are_of_one_thread(run: &[Footprint], i: usize, j: usize) -> bool
    requires first { i < length run.now }
    requires second { j < length run.now }
    ensures { IsTrue result ↔ thread_at run.now i ≡ thread_at run.now j }
{
    thread_at(run, i) == thread_at(run, j)
}

// Whether step `i` is of j's thread or lies under the clock.
fn is_own_or_under(run: &[Footprint], clock: &Clock, i: usize, j: usize) -> bool
    requires first { i < length run.now }
    requires second { j < length run.now }
    ensures known { IsTrue result → thread_at run.now i ≢ thread_at run.now j → IsUnder run.now clock.now i }
    ensures apart { IsFalse result → thread_at run.now i ≢ thread_at run.now j }
{
    if are_of_one_thread(run, i, j) {
        return true;
    }
    is_under(run, clock, i)
}

// Follows the latest step of a row from which an edge leads to step `j`, unless it is of j's thread or the clock knows
// it. Those behind it race with `j`, and those before it are known with it.
fn follow_row(
    alloc: Global,
    run: &[Footprint],
    clocks: &[Clock],
    numbers: &[u32],
    links: &[Link],
    skips: &[Skip],
    row: Row,
    x: usize,
    clock: &mut Clock,
    j: usize,
    next: usize,
) -> Result<Walk, OutOfMemory>
    requires within { j < length run.now }
    requires few { length run.now < 2 ^ 32 }
    requires clocks { AreClocks run.now j clocks.now numbers.now }
    requires links { AreLinks links.now }
    requires skips { AreSkips run.now j links.now skips.now }
    requires row { IsRow run.now j links.now row }
    requires next { IsNext run.now j next }
    requires part { IsPart run.now clock.old j }
    ensures part { OnOk result (IsPart run.now clock.new j) }
    ensures seen { OnOk result (IsRowSeen run.now links.now row clock.new j) }
    ensures kept { OnOk result ((m : ℕ) → IsUnder run.now clock.old m → IsUnder run.now clock.new m) }
    ensures same { IfOk result (λ w. IsFalse w.changed → clock.new ≡ clock.old) }
    ensures skip { IfOk result (λ w. IsTrue w.whole → IsSkip run.now j links.now (row.last, w.end, w.by.items)) }
{
    let mut walk = Walk {
        changed: false,
        whole: true,
        end: row.last,
        slot: slot_of(x, j),
        by: Vec::new(alloc),
    };
    while walk.end > 0 {
        let link = links[walk.end as usize - 1];
        let i = link.step as usize;
        if is_own_or_under(run, &*clock, i, j) {
            return Ok(walk);
        }
        if edge(run, i, j, next) {
            follow_edge(run, clocks, numbers, i, clock, j)?;
            walk.changed = true;
            return Ok(walk);
        }
        pass(run, links, skips, row, x, &mut walk, j)?;
    }
    Ok(walk)
}

/// The same of the row at a place, if there is one, whose key step `j` asks and doesn't race with.
pub(crate) fn follow_place(
    alloc: Global,
    run: &[Footprint],
    clocks: &[Clock],
    numbers: &[u32],
    rows: &[Row],
    links: &[Link],
    skips: &[Skip],
    x: usize,
    clock: &mut Clock,
    j: usize,
    next: usize,
) -> Result<Walk, OutOfMemory>
    requires within { j < length run.now }
    requires few { length run.now < 2 ^ 32 }
    requires clocks { AreClocks run.now j clocks.now numbers.now }
    requires rows { AreRows run.now j rows.now links.now }
    requires skips { AreSkips run.now j links.now skips.now }
    requires next { IsNext run.now j next }
    requires part { IsPart run.now clock.old j }
    ensures part { OnOk result (IsPart run.now clock.new j) }
    ensures seen { OnOk result (IsPlaceSeen run.now rows.now links.now x clock.new j) }
    ensures kept { OnOk result ((m : ℕ) → IsUnder run.now clock.old m → IsUnder run.now clock.new m) }
    ensures same { IfOk result (λ w. IsFalse w.changed → clock.new ≡ clock.old) }
    ensures skip { IfOk result
        (λ w. IsTrue w.whole → IsSkip run.now j links.now ((row_at rows.now x).last, w.end, w.by.items)) }
{
    if is_place_known(run, &*clock, rows, links, x, j) {
        return Ok(no_walk(alloc));
    }
    let row = rows[x];
    follow_row(
        alloc, run, clocks, numbers, links, skips, row, x, clock, j, next,
    )
}

/// Appends the skip that a walk over the row at a place leaves.
pub(crate) fn keep_walk(
    left: &mut Vec<Skip>,
    rows: &[Row],
    x: usize,
    walk: Walk,
) -> Result<(), OutOfMemory>
    ensures { OnOk result ((run : List Footprint) (j : ℕ) (links : List Link)
        → (IsTrue walk.whole → IsSkip run j links ((row_at rows.now x).last, walk.end, walk.by.items))
        → AreSkips run j links left.old.items → AreSkips run j links left.new.items) }
{
    if !walk.whole {
        return Ok(());
    }
    if walk.by.is_empty() {
        return Ok(());
    }
    if x >= rows.len() {
        return Ok(());
    }
    left.push(Skip::new(walk.slot, rows[x].last, walk.end, walk.by))?;
    Ok(())
}

/// Whether an edge to step `j` may come from a step of a row of another thread: not where the key allows none.
#[tactic(auto, using(mr_event::proofs::Read::step_read))]
pub(crate) fn may_lead(run: &[Footprint], row: Row, j: usize) -> bool
    requires { j < length run.now }
    ensures { IsTrue (asks (step_at run.now j) row.key) → key_races row.key (step_at run.now j) ≡ false
        → IsTrue result }
{
    let step = &run[j];
    may_bind(row.key, step)
}

// Whether step `j` races with the range that the key of a row names.
#[tactic(auto, using(mr_event::proofs::Read::step_read))]
fn may_rival(run: &[Footprint], row: Row, j: usize) -> bool
    requires { j < length run.now }
    ensures raced { IsTrue result → key_races row.key (step_at run.now j) ≡ true }
    ensures all { key_races row.key (step_at run.now j) ≡ true → IsTrue result }
{
    let step = &run[j];
    may_race(row.key, step)
}

/// The number, or one more than the latest step of the row at a place, where that is more and a partner of step `j`.
pub(crate) fn better(
    run: &[Footprint],
    clock: &Clock,
    rows: &[Row],
    links: &[Link],
    x: usize,
    j: usize,
    best: usize,
) -> usize
    requires within { j < length run.now }
    requires clock { IsClockOf run.now clock.now j }
    requires rows { AreRows run.now j rows.now links.now }
    requires partner { IsPartnerOr run.now j best }
    ensures partner { IsPartnerOr run.now j result }
    ensures beyond { IsPlaceBeyond run.now rows.now links.now x j result }
    ensures grown { best ≤ result }
{
    if is_latest_known(run, clock, rows, links, x, j) {
        return best;
    }
    let row = rows[x];
    if !may_rival(run, row, j) {
        return best;
    }
    let i = links[row.last as usize - 1].step as usize;
    if i < best {
        return best;
    }
    if is_under(run, clock, i) {
        return best;
    }
    i + 1
}

// Before which link of a row step `j` goes: the latest, or the one before that where it keeps `j` already.
fn below(links: &[Link], last: u32, j: usize) -> u32
    requires { last ≤ length links.now }
    ensures { IsBelow links.now last j result }
{
    if last == 0 {
        return 0;
    }
    let link = links[last as usize - 1];
    if link.step as usize == j {
        link.before
    } else {
        last
    }
}

// Notes step `j` of a thread in the row at a place.
fn note(rows: &mut Vec<Row>, links: &mut Vec<Link>, x: usize, thread: u32, j: usize)
    requires small { j < 2 ^ 32 }
    requires inside { x < length rows.old.items }
    requires last { (row_at rows.old.items x).last ≤ length links.old.items }
    requires room { vec_len links.old < vec_capacity links.old }
    requires few { vec_len links.old + 1 < 2 ^ 32 }
    ensures noted { IsNoted rows.old.items links.old.items x j thread rows.new.items links.new.items }
    ensures one { vec_len links.new ≡ vec_len links.old + 1 }
    ensures room { vec_capacity links.new ≡ vec_capacity links.old }
{
    let row = &mut rows[x];
    let before = below(links.as_slice(), row.last, j);
    links.push_reserved(Link {
        step: j as u32,
        before,
    });
    row.thread = thread;
    row.last = links.len() as u32;
}

/// Notes step `j` in the rows at some places, which are those of the keys under which it is noted.
pub(crate) fn note_all(
    run: &[Footprint],
    rows: &mut Vec<Row>,
    links: &mut Vec<Link>,
    places: &[usize],
    j: usize,
)
    requires within { j < length run.now }
    requires few { length run.now < 2 ^ 32 }
    requires rows { AreRows run.now j rows.old.items links.old.items }
    requires places { ArePlaces (step_at run.now j) rows.old.items places.now }
    requires room { vec_len links.old + length places.now ≤ vec_capacity links.old }
    requires small { vec_len links.old + length places.now < 2 ^ 32 }
    ensures rows { AreRows run.now (j + 1) rows.new.items links.new.items }
    ensures keys { HaveKeysOf rows.old.items rows.new.items }
    ensures longer { AreLonger links.old.items links.new.items }
{
    let thread = thread_at(run, j);
    for y in 0..places.len() {
        note(rows, links, places[y], thread, j);
    }
}
