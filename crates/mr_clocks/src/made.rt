//! The clock of a step and its greatest partner, from the clocks and the rows of the steps before it.

ghost use Rattle.std.specs.Prelude.{◌≡◌, ℕ, ◌+◌, ◌<◌, ◌≤◌, ◌^◌, IfOk, IfSome, IsFalse, IsTrue, MatchOption, OnOk, false, length, slice_index};
ghost use Rattle.mr_event.specs.Order.{step_at, thread_at, Edge, IsGreatestPartner, HasNoPartner, RacePair};
ghost use Rattle.mr_clocks.specs.Clocks.{AreClocks, AreLatest, IsClockOf, IsMade, IsPart, IsUnder, KeepsClock, clock_at};
ghost use Rattle.mr_clocks.specs.Rows.{AreAllAsked, ArePlacesKnown, AreRows, IsPlaceKnown, IsPlaceSeen};
ghost use Rattle.mr_clocks.specs.Skips.{AreSkips};
ghost use Rattle.mr_clocks.specs.Tracked.{IsNext, IsPartnerOr};
ghost use Rattle.mr_clocks.specs.Wakers.{AreSyncsUnder, AreWakers};

use crate::analysis::lent;
use crate::clock::Clock;
use crate::hints::follow_hint;
use crate::known::{
    Standing, are_latest_known, is_both, is_latest_known, is_place_known, no_standing, standing_to,
};
use crate::rows::{Link, Row, better, follow_place, keep_walk};
use crate::skips::Skip;
use crate::wakers::{Wakers, follow_wakers, is_woken};
use mr_event::{Footprint, OutOfMemory, thread_at};
use std::alloc::Global;

/// The clock that was made for a step, or none where it keeps that of the step before in its thread; the skips that its
/// walks over rows leave; and whether it was seen on these that the step has no partner.
#[derive(Drop)]
pub(crate) struct Found {
    pub clock: Option<Clock>,
    pub skips: Vec<Skip>,
    pub alone: bool,
}

// Whether a walk over a row changed the clock, and whether the clock knows the row's latest step behind it.
#[derive(Clone, Copy)]
struct Walked {
    changed: bool,
    known: bool,
}

// What is to be followed ahead of a row with a step that the clock doesn't know.
#[derive(Clone, Copy)]
enum Ahead {
    Newest,
    Falling,
    Nothing,
}

// One more than the latest step of a row, or 0, and the row's place.
#[derive(Clone, Copy, PartialEq, Eq, PartialOrd, Ord)]
struct Latest {
    step: usize,
    x: usize,
}

// With what the clock of step `j` begins: that of the step before in its thread.
fn base(
    alloc: Global,
    run: &[Footprint],
    clocks: &[Clock],
    numbers: &[u32],
    latest: &Clock,
    j: usize,
) -> Result<Clock, OutOfMemory>
    requires within { j < length run.now }
    requires clocks { AreClocks run.now j clocks.now numbers.now }
    requires latest { AreLatest run.now j latest.now }
    ensures part { IfOk result (λ c. IsPart run.now c j) }
    ensures previous { IfOk result
        (λ c. (p : ℕ) → slice_index latest.now (thread_at run.now j) ≡ p + 1 → c ≡ clock_at clocks.now numbers.now p) }
{
    let next = latest.at(thread_at(run, j));
    if next == 0 {
        return Ok(Clock::new(alloc));
    }
    let clock = lent(clocks, numbers, next as usize - 1).copied(alloc)?;
    Ok(clock)
}

/// Whether one of the two holds.
pub(crate) fn is_either(one: bool, other: bool) -> bool
    ensures one { IsFalse result → one ≡ false }
    ensures other { IsFalse result → other ≡ false }
{
    one || other
}

// Follows the row at a place, and keeps the skip that the walk leaves.
fn walk_place(
    alloc: Global,
    run: &[Footprint],
    clocks: &[Clock],
    numbers: &[u32],
    rows: &[Row],
    links: &[Link],
    skips: &[Skip],
    x: usize,
    clock: &mut Clock,
    left: &mut Vec<Skip>,
    j: usize,
    next: usize,
) -> Result<Walked, OutOfMemory>
    requires within { j < length run.now }
    requires few { length run.now < 2 ^ 32 }
    requires clocks { AreClocks run.now j clocks.now numbers.now }
    requires rows { AreRows run.now j rows.now links.now }
    requires skips { AreSkips run.now j links.now skips.now }
    requires next { IsNext run.now j next }
    requires part { IsPart run.now clock.old j }
    requires left { AreSkips run.now j links.now left.old.items }
    ensures part { OnOk result (IsPart run.now clock.new j) }
    ensures seen { OnOk result (IsPlaceSeen run.now rows.now links.now x clock.new j) }
    ensures kept { OnOk result ((m : ℕ) → IsUnder run.now clock.old m → IsUnder run.now clock.new m) }
    ensures same { IfOk result (λ w. IsFalse w.changed → clock.new ≡ clock.old) }
    ensures left { OnOk result (AreSkips run.now j links.now left.new.items) }
    ensures known { IfOk result (λ w. IsTrue w.known → IsPlaceKnown run.now rows.now links.now x clock.new j) }
{
    if is_latest_known(run, &*clock, rows, links, x, j) {
        return Ok(Walked {
            changed: false,
            known: true,
        });
    }
    let walk = follow_place(
        alloc, run, clocks, numbers, rows, links, skips, x, clock, j, next,
    )?;
    let changed = walk.changed;
    keep_walk(left, rows, x, walk)?;
    let known = is_latest_known(run, &*clock, rows, links, x, j);
    Ok(Walked { changed, known })
}

// The clock, unless it didn't change and there is a step before it in its thread.
fn if_new(clock: Clock, changed: bool, next: usize) -> Option<Clock>
    ensures { MatchOption result ((changed ≡ false) × (0 < next)) (λ c. c ≡ clock) }
{
    if changed || next == 0 {
        Some(clock)
    } else {
        None
    }
}

// What is to be followed ahead, where there are so many rows.
fn ahead_of(many: usize) -> Ahead {
    if many < 2 {
        Ahead::Nothing
    } else {
        Ahead::Newest
    }
}

// One more than the latest step of the row at a place, or 0 where there is none.
fn latest_at(run: &[Footprint], rows: &[Row], links: &[Link], x: usize, j: usize) -> usize
    requires within { j < length run.now }
    requires rows { AreRows run.now j rows.now links.now }
{
    if x >= rows.len() {
        return 0;
    }
    let row = rows[x];
    if row.last == 0 {
        return 0;
    }
    links[row.last as usize - 1].step as usize + 1
}

// Where among some places that of the row stands whose latest step is the newest of those that a clock doesn't know;
// past them where it knows all.
fn newest_unknown(
    run: &[Footprint],
    clock: &Clock,
    rows: &[Row],
    links: &[Link],
    found: &[usize],
    j: usize,
) -> usize
    requires within { j < length run.now }
    requires rows { AreRows run.now j rows.now links.now }
{
    let mut newest = 0;
    let mut at = found.len();
    for y in 0..found.len() {
        let latest = latest_at(run, rows, links, found[y], j);
        if latest > newest && !is_latest_known(run, clock, rows, links, found[y], j) {
            newest = latest;
            at = y;
        }
    }
    at
}

// Follows the row with the newest step that the clock doesn't know.
fn walk_newest(
    alloc: Global,
    run: &[Footprint],
    clocks: &[Clock],
    numbers: &[u32],
    rows: &[Row],
    links: &[Link],
    skips: &[Skip],
    found: &[usize],
    clock: &mut Clock,
    left: &mut Vec<Skip>,
    j: usize,
    next: usize,
) -> Result<bool, OutOfMemory>
    requires within { j < length run.now }
    requires few { length run.now < 2 ^ 32 }
    requires clocks { AreClocks run.now j clocks.now numbers.now }
    requires rows { AreRows run.now j rows.now links.now }
    requires skips { AreSkips run.now j links.now skips.now }
    requires next { IsNext run.now j next }
    requires part { IsPart run.now clock.old j }
    requires left { AreSkips run.now j links.now left.old.items }
    ensures part { OnOk result (IsPart run.now clock.new j) }
    ensures kept { OnOk result ((m : ℕ) → IsUnder run.now clock.old m → IsUnder run.now clock.new m) }
    ensures same { IfOk result (λ changed. IsFalse changed → clock.new ≡ clock.old) }
    ensures left { OnOk result (AreSkips run.now j links.now left.new.items) }
{
    let y = newest_unknown(run, &*clock, rows, links, found, j);
    if y >= found.len() {
        return Ok(false);
    }
    let walked = walk_place(
        alloc, run, clocks, numbers, rows, links, skips, found[y], clock, left, j, next,
    )?;
    Ok(walked.changed)
}

// Of some rows those with a step that a clock doesn't know, and from which an edge may lead to step `j`, by rising
// steps.
fn unknown_rows(
    alloc: Global,
    run: &[Footprint],
    clock: &Clock,
    rows: &[Row],
    links: &[Link],
    found: &[usize],
    j: usize,
) -> Result<Vec<Latest>, OutOfMemory>
    requires within { j < length run.now }
    requires rows { AreRows run.now j rows.now links.now }
    requires part { IsPart run.now clock.now j }
{
    let mut unknown = Vec::new(alloc);
    for y in 0..found.len() {
        let x = found[y];
        if !is_place_known(run, clock, rows, links, x, j) {
            let step = latest_at(run, rows, links, x, j);
            unknown.push(Latest { step, x })?;
        }
    }
    unknown.sort_unstable();
    Ok(unknown)
}

// Follows the rows with a step that the clock doesn't know, by falling steps.
fn walk_falling(
    alloc: Global,
    run: &[Footprint],
    clocks: &[Clock],
    numbers: &[u32],
    rows: &[Row],
    links: &[Link],
    skips: &[Skip],
    found: &[usize],
    clock: &mut Clock,
    left: &mut Vec<Skip>,
    j: usize,
    next: usize,
) -> Result<bool, OutOfMemory>
    requires within { j < length run.now }
    requires few { length run.now < 2 ^ 32 }
    requires clocks { AreClocks run.now j clocks.now numbers.now }
    requires rows { AreRows run.now j rows.now links.now }
    requires skips { AreSkips run.now j links.now skips.now }
    requires next { IsNext run.now j next }
    requires part { IsPart run.now clock.old j }
    requires left { AreSkips run.now j links.now left.old.items }
    ensures part { OnOk result (IsPart run.now clock.new j) }
    ensures kept { OnOk result ((m : ℕ) → IsUnder run.now clock.old m → IsUnder run.now clock.new m) }
    ensures same { IfOk result (λ changed. IsFalse changed → clock.new ≡ clock.old) }
    ensures left { OnOk result (AreSkips run.now j links.now left.new.items) }
{
    let unknown = unknown_rows(alloc, run, &*clock, rows, links, found, j)?;
    let mut changed = false;
    for k in 0..unknown.len() {
        let x = unknown[unknown.len() - 1 - k].x;
        let walked = walk_place(
            alloc, run, clocks, numbers, rows, links, skips, x, clock, left, j, next,
        )?;
        changed = is_either(changed, walked.changed);
    }
    Ok(changed)
}

// Follows other rows before one that the clock doesn't know: at first that with the newest step, and next time all by
// falling steps. What a newer step knows needs no walk any more, so that a clock joins few others.
fn walk_ahead(
    alloc: Global,
    run: &[Footprint],
    clocks: &[Clock],
    numbers: &[u32],
    rows: &[Row],
    links: &[Link],
    skips: &[Skip],
    found: &[usize],
    clock: &mut Clock,
    left: &mut Vec<Skip>,
    ahead: &mut Ahead,
    j: usize,
    next: usize,
) -> Result<bool, OutOfMemory>
    requires within { j < length run.now }
    requires few { length run.now < 2 ^ 32 }
    requires clocks { AreClocks run.now j clocks.now numbers.now }
    requires rows { AreRows run.now j rows.now links.now }
    requires skips { AreSkips run.now j links.now skips.now }
    requires next { IsNext run.now j next }
    requires part { IsPart run.now clock.old j }
    requires left { AreSkips run.now j links.now left.old.items }
    ensures part { OnOk result (IsPart run.now clock.new j) }
    ensures kept { OnOk result ((m : ℕ) → IsUnder run.now clock.old m → IsUnder run.now clock.new m) }
    ensures same { IfOk result (λ changed. IsFalse changed → clock.new ≡ clock.old) }
    ensures left { OnOk result (AreSkips run.now j links.now left.new.items) }
{
    match *ahead {
        Ahead::Newest => {
            *ahead = Ahead::Falling;
            walk_newest(
                alloc, run, clocks, numbers, rows, links, skips, found, clock, left, j, next,
            )
        }
        Ahead::Falling => {
            *ahead = Ahead::Nothing;
            walk_falling(
                alloc, run, clocks, numbers, rows, links, skips, found, clock, left, j, next,
            )
        }
        Ahead::Nothing => Ok(false),
    }
}

// Follows the row at place `x`, after those that are to be followed ahead of it.
fn walk_next(
    alloc: Global,
    run: &[Footprint],
    clocks: &[Clock],
    numbers: &[u32],
    rows: &[Row],
    links: &[Link],
    skips: &[Skip],
    found: &[usize],
    x: usize,
    clock: &mut Clock,
    left: &mut Vec<Skip>,
    ahead: &mut Ahead,
    j: usize,
    next: usize,
) -> Result<Walked, OutOfMemory>
    requires within { j < length run.now }
    requires few { length run.now < 2 ^ 32 }
    requires clocks { AreClocks run.now j clocks.now numbers.now }
    requires rows { AreRows run.now j rows.now links.now }
    requires skips { AreSkips run.now j links.now skips.now }
    requires next { IsNext run.now j next }
    requires part { IsPart run.now clock.old j }
    requires left { AreSkips run.now j links.now left.old.items }
    ensures part { OnOk result (IsPart run.now clock.new j) }
    ensures seen { OnOk result (IsPlaceSeen run.now rows.now links.now x clock.new j) }
    ensures kept { OnOk result ((m : ℕ) → IsUnder run.now clock.old m → IsUnder run.now clock.new m) }
    ensures same { IfOk result (λ w. IsFalse w.changed → clock.new ≡ clock.old) }
    ensures left { OnOk result (AreSkips run.now j links.now left.new.items) }
    ensures known { IfOk result (λ w. IsTrue w.known → IsPlaceKnown run.now rows.now links.now x clock.new j) }
{
    if is_latest_known(run, &*clock, rows, links, x, j) {
        return Ok(Walked {
            changed: false,
            known: true,
        });
    }
    let before = walk_ahead(
        alloc, run, clocks, numbers, rows, links, skips, found, clock, left, ahead, j, next,
    )?;
    let walked = walk_place(
        alloc, run, clocks, numbers, rows, links, skips, x, clock, left, j, next,
    )?;
    let changed = is_either(before, walked.changed);
    Ok(Walked {
        changed,
        known: walked.known,
    })
}

// Follows the steps that woke or created j's thread, and then the one that a hint names, if there is one. Tells whether
// the clock changed.
fn follow_first(
    run: &[Footprint],
    clocks: &[Clock],
    numbers: &[u32],
    wakers: &Wakers,
    hint: Option<usize>,
    clock: &mut Clock,
    j: usize,
    next: usize,
) -> Result<bool, OutOfMemory>
    requires within { j < length run.now }
    requires few { length run.now < 2 ^ 32 }
    requires clocks { AreClocks run.now j clocks.now numbers.now }
    requires wakers { AreWakers run.now j j wakers.now.heads.items wakers.now.links.items }
    requires hint { IfSome hint (λ i. Edge run.now i j) }
    requires next { IsNext run.now j next }
    requires part { IsPart run.now clock.old j }
    ensures part { OnOk result (IsPart run.now clock.new j) }
    ensures syncs { OnOk result (AreSyncsUnder run.now clock.new j) }
    ensures same { IfOk result (λ changed. IsFalse changed → clock.new ≡ clock.old) }
{
    let woken = follow_wakers(run, clocks, numbers, wakers, clock, j, next)?;
    let hinted = follow_hint(run, clocks, numbers, hint, clock, j)?;
    Ok(is_either(woken, hinted))
}

// Whether a clock that changed knows the latest steps of the rows at some places. As a call of its own it has registers
// for all that it looks at.
#[inline(never)]
fn is_done(
    run: &[Footprint],
    clock: &Clock,
    rows: &[Row],
    links: &[Link],
    found: &[usize],
    changed: bool,
    j: usize,
) -> bool
    requires within { j < length run.now }
    requires rows { AreRows run.now j rows.now links.now }
    ensures { IsTrue result → ArePlacesKnown run.now rows.now links.now found.now clock.now j }
{
    changed && are_latest_known(run, clock, rows, links, found, j)
}

// The clock of step `j`, from those of the steps before it: it follows each step of another thread that an edge leads
// from, at first those that woke or created j's thread, and the one that a hint names.
#[inline(never)]
fn walked_clock(
    alloc: Global,
    run: &[Footprint],
    clocks: &[Clock],
    numbers: &[u32],
    latest: &Clock,
    wakers: &Wakers,
    rows: &[Row],
    links: &[Link],
    skips: &[Skip],
    found: &[usize],
    hint: Option<usize>,
    j: usize,
) -> Result<Found, OutOfMemory>
    requires within { j < length run.now }
    requires few { length run.now < 2 ^ 32 }
    requires clocks { AreClocks run.now j clocks.now numbers.now }
    requires latest { AreLatest run.now j latest.now }
    requires wakers { AreWakers run.now j j wakers.now.heads.items wakers.now.links.items }
    requires rows { AreRows run.now j rows.now links.now }
    requires skips { AreSkips run.now j links.now skips.now }
    requires found { AreAllAsked (step_at run.now j) rows.now found.now }
    requires hint { IfSome hint (λ i. Edge run.now i j) }
    ensures made { IfOk result (λ f. IsMade run.now clocks.now numbers.now
        (slice_index latest.now (thread_at run.now j)) f.clock j) }
    ensures skips { IfOk result (λ f. AreSkips run.now j links.now f.skips.items) }
    ensures alone { IfOk result (λ f. IsTrue f.alone → HasNoPartner run.now j) }
{
    let mut clock = base(alloc, run, clocks, numbers, latest, j)?;
    let next = latest.at(thread_at(run, j)) as usize;
    let mut changed = follow_first(run, clocks, numbers, wakers, hint, &mut clock, j, next)?;
    if is_done(run, &clock, rows, links, found, changed, j) {
        return Ok(Found {
            clock: Some(clock),
            skips: Vec::new(alloc),
            alone: true,
        });
    }
    let mut alone = true;
    let mut left = Vec::new(alloc);
    let mut ahead = ahead_of(found.len());
    for y in 0..found.len() {
        let x = found[y];
        let walked = walk_next(
            alloc, run, clocks, numbers, rows, links, skips, found, x, &mut clock, &mut left,
            &mut ahead, j, next,
        )?;
        changed = is_either(changed, walked.changed);
        alone = is_both(alone, walked.known);
    }
    let made = if_new(clock, changed, next);
    Ok(Found {
        clock: made,
        skips: left,
        alone,
    })
}

/// How the clock of the step before in j's thread stands to the rows that `j` asks: as one that knows too little where
/// a step woke the thread since, or a hint names a step that leads to `j`. Where it keeps, `j` keeps that clock; where
/// it is settled too, `j` has no partner.
pub(crate) fn standing_of(
    run: &[Footprint],
    clocks: &[Clock],
    numbers: &[u32],
    latest: &Clock,
    wakers: &Wakers,
    rows: &[Row],
    links: &[Link],
    found: &[usize],
    hint: Option<usize>,
    j: usize,
) -> Standing
    requires within { j < length run.now }
    requires clocks { AreClocks run.now j clocks.now numbers.now }
    requires latest { AreLatest run.now j latest.now }
    requires wakers { AreWakers run.now j j wakers.now.heads.items wakers.now.links.items }
    requires rows { AreRows run.now j rows.now links.now }
    requires found { AreAllAsked (step_at run.now j) rows.now found.now }
    ensures keeps { IsTrue result.keeps
        → KeepsClock run.now clocks.now numbers.now (slice_index latest.now (thread_at run.now j)) j }
    ensures settled { IsTrue result.settled
        → KeepsClock run.now clocks.now numbers.now (slice_index latest.now (thread_at run.now j)) j }
    ensures alone { IsTrue result.settled → HasNoPartner run.now j }
{
    if hint.is_some() {
        return no_standing();
    }
    let next = latest.at(thread_at(run, j));
    if next == 0 {
        return no_standing();
    }
    if is_woken(run, wakers, j, next as usize) {
        return no_standing();
    }
    let clock = lent(clocks, numbers, next as usize - 1);
    standing_to(run, clock, rows, links, found, j)
}

/// The clock of step `j`, from those of the steps before it. It is known whether `j` keeps that of the step before in
/// its thread.
pub(crate) fn clock_of(
    alloc: Global,
    run: &[Footprint],
    clocks: &[Clock],
    numbers: &[u32],
    latest: &Clock,
    wakers: &Wakers,
    rows: &[Row],
    links: &[Link],
    skips: &[Skip],
    found: &[usize],
    hint: Option<usize>,
    keeps: bool,
    j: usize,
) -> Result<Found, OutOfMemory>
    requires within { j < length run.now }
    requires few { length run.now < 2 ^ 32 }
    requires clocks { AreClocks run.now j clocks.now numbers.now }
    requires latest { AreLatest run.now j latest.now }
    requires wakers { AreWakers run.now j j wakers.now.heads.items wakers.now.links.items }
    requires rows { AreRows run.now j rows.now links.now }
    requires skips { AreSkips run.now j links.now skips.now }
    requires found { AreAllAsked (step_at run.now j) rows.now found.now }
    requires hint { IfSome hint (λ i. Edge run.now i j) }
    requires keeps { IsTrue keeps
        → KeepsClock run.now clocks.now numbers.now (slice_index latest.now (thread_at run.now j)) j }
    ensures made { IfOk result (λ f. IsMade run.now clocks.now numbers.now
        (slice_index latest.now (thread_at run.now j)) f.clock j) }
    ensures skips { IfOk result (λ f. AreSkips run.now j links.now f.skips.items) }
    ensures alone { IfOk result (λ f. IsTrue f.alone → HasNoPartner run.now j) }
{
    if keeps {
        return Ok(Found {
            clock: None,
            skips: Vec::new(alloc),
            alone: false,
        });
    }
    walked_clock(
        alloc, run, clocks, numbers, latest, wakers, rows, links, skips, found, hint, j,
    )
}

// One more than the place of the greatest partner of step `j`, or 0. Of a partner's thread the latest step with an
// access of the same range is one too.
fn best_partner(
    run: &[Footprint],
    clock: &Clock,
    rows: &[Row],
    links: &[Link],
    found: &[usize],
    j: usize,
) -> usize
    requires within { j < length run.now }
    requires clock { IsClockOf run.now clock.now j }
    requires rows { AreRows run.now j rows.now links.now }
    requires found { AreAllAsked (step_at run.now j) rows.now found.now }
    ensures partner { IsPartnerOr run.now j result }
    ensures greatest { (m : ℕ) → RacePair run.now m j → m < result }
{
    let mut best = 0;
    for y in 0..found.len() {
        best = better(run, clock, rows, links, found[y], j, best);
    }
    best
}

// The greatest partner of step `j`, by its clock.
fn partner_of(
    run: &[Footprint],
    clock: &Clock,
    rows: &[Row],
    links: &[Link],
    found: &[usize],
    j: usize,
) -> Option<usize>
    requires within { j < length run.now }
    requires clock { IsClockOf run.now clock.now j }
    requires rows { AreRows run.now j rows.now links.now }
    requires found { AreAllAsked (step_at run.now j) rows.now found.now }
    ensures { MatchOption result (HasNoPartner run.now j) (λ i. IsGreatestPartner run.now i j) }
{
    let best = best_partner(run, clock, rows, links, found, j);
    if best == 0 { None } else { Some(best - 1) }
}

/// The greatest partner of step `j`, by the clock that was made for it, or else by that of the step before in its
/// thread; none where it is known that it has none.
pub(crate) fn partner_by(
    run: &[Footprint],
    clocks: &[Clock],
    numbers: &[u32],
    rows: &[Row],
    links: &[Link],
    found: &[usize],
    next: u32,
    made: &Option<Clock>,
    alone: bool,
    j: usize,
) -> Option<usize>
    requires within { j < length run.now }
    requires clocks { AreClocks run.now j clocks.now numbers.now }
    requires rows { AreRows run.now j rows.now links.now }
    requires found { AreAllAsked (step_at run.now j) rows.now found.now }
    requires next { next ≤ j }
    requires made { IsMade run.now clocks.now numbers.now next made.now j }
    requires alone { IsTrue alone → HasNoPartner run.now j }
    ensures { MatchOption result (HasNoPartner run.now j) (λ i. IsGreatestPartner run.now i j) }
{
    if alone {
        return None;
    }
    match made {
        Some(clock) => partner_of(run, clock, rows, links, found, j),
        None => {
            let clock = lent(clocks, numbers, next as usize - 1);
            partner_of(run, clock, rows, links, found, j)
        }
    }
}
