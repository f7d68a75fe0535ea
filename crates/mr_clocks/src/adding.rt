//! One more step of a run: its clock, its greatest partner, and its rows.
//!
//! Most steps do what an earlier one did, and keep the clock of the step before in their thread. What the others need
//! stands in calls of their own, which are marked `inline(never)`, so that it costs those steps nothing.

ghost use Rattle.std.specs.Prelude.{◌≡◌, ◌≢◌, ℕ, ◌+◌, ◌<◌, ◌≤◌, ◌^◌, IfOk, IfSome, IsTrue, OnOk, OnErr, OnSome, MatchOption, length, slice_index, max, vec_len, vec_capacity};
ghost use Rattle.mr_event.specs.Order.{step_at, thread_at, Edge, IsGreatestPartner, HasNoPartner};
ghost use Rattle.mr_clocks.specs.Clocks.{AreClocks, AreLatest, IsMade, IsNumbered, KeepsClock};
ghost use Rattle.mr_clocks.specs.Marks.{AreMarked};
ghost use Rattle.mr_clocks.specs.Memos.{AreMemos, IsMemoOf, memo_at};
ghost use Rattle.mr_clocks.specs.Rows.{AreAllAsked, ArePlaces, AreRows, HaveKeysOf, IsGrown};
ghost use Rattle.mr_clocks.specs.Skips.{AreSkips};
ghost use Rattle.mr_clocks.specs.Wakers.{AreExtended, AreWakers, CanNote};

use crate::clock::Clock;
use crate::hints::{Slots, fill_hints, hinted, note_hint};
use crate::index::Index;
use crate::made::{clock_of, partner_by, standing_of};
use crate::memos::{Memo, look_up};
use crate::rows::{Link, Row, note_all, reserve_links};
use crate::skips::{Skip, reserve_table, store_all};
use crate::wakers::{Wakers, enter_wakes, prepare_wakes};
use mr_event::{Footprint, OutOfMemory, thread_at};
use std::alloc::Global;

// The place of a memo of step `j`.
#[tactic(auto, using(mr_event::proofs::Read::step_read))]
fn memo_of(
    alloc: Global,
    run: &[Footprint],
    memos: &mut Vec<Memo>,
    index: &mut Index,
    rows: &mut Vec<Row>,
    j: usize,
) -> Result<usize, OutOfMemory>
    requires within { j < length run.now }
    requires marked { AreMarked index.old.shelves.items index.old.marks.keys rows.old.items }
    requires memos { AreMemos rows.old.items memos.old.items }
    ensures marked { AreMarked index.new.shelves.items index.new.marks.keys rows.new.items }
    ensures grown { IsGrown rows.old.items rows.new.items }
    ensures memos { AreMemos rows.new.items memos.new.items }
    ensures inside { IfOk result (λ x. x < length memos.new.items) }
    ensures memo { IfOk result (λ x. IsMemoOf rows.new.items (step_at run.now j) (memo_at memos.new.items x)) }
{
    let step = &run[j];
    look_up(alloc, memos, index, rows, step)
}

// Takes the memory that keeping step `j` needs but that of a new clock, with some more skips and with a link for each
// row in which it is noted.
#[inline(always)]
fn prepare(
    run: &[Footprint],
    numbers: &mut Vec<u32>,
    latest: &mut Clock,
    wakers: &mut Wakers,
    links: &mut Vec<Link>,
    skips: &mut Vec<Skip>,
    more: usize,
    noted: usize,
    j: usize,
) -> Result<(), OutOfMemory>
    requires within { j < length run.now }
    requires few { length run.now < 2 ^ 32 }
    ensures numbers { numbers.new.items ≡ numbers.old.items }
    ensures links { links.new.items ≡ links.old.items }
    ensures skips { skips.new.items ≡ skips.old.items }
    ensures heads { AreExtended wakers.old.heads.items wakers.new.heads.items }
    ensures wakings { wakers.new.links.items ≡ wakers.old.links.items }
    ensures err { OnErr result (latest.new ≡ latest.old) }
    ensures own { OnOk result
        (slice_index latest.new (thread_at run.now j) ≡ max (slice_index latest.old (thread_at run.now j)) (j + 1)) }
    ensures others { OnOk result
        ((t : ℕ) → t ≢ thread_at run.now j → slice_index latest.new t ≡ slice_index latest.old t) }
    ensures one_number { OnOk result (vec_len numbers.new < vec_capacity numbers.new) }
    ensures table { OnOk result (0 < more → vec_len skips.new < 8192 → 8192 ≤ vec_capacity skips.new) }
    ensures room { OnOk result (vec_len links.new + noted ≤ vec_capacity links.new) }
    ensures small { OnOk result (vec_len links.new + noted < 2 ^ 32) }
    ensures woken { OnOk result (CanNote (step_at run.now j) wakers.new) }
{
    reserve_links(links, noted)?;
    reserve_table(skips, more)?;
    numbers.reserve(1)?;
    prepare_wakes(run, wakers, j)?;
    latest.raise(thread_at(run, j), j as u32 + 1)?;
    Ok(())
}

// The number of the clock of a step: of a new one, or of that of the step before in its thread, which is before `next`.
fn numbered(clocks: &mut Vec<Clock>, numbers: &[u32], next: u32, made: Option<Clock>) -> u32
    requires room { OnSome made (vec_len clocks.old < vec_capacity clocks.old) }
    requires few { length clocks.old.items < 2 ^ 32 }
    requires step { next ≤ length numbers.now }
    requires within { (p : ℕ) → next ≡ p + 1 → slice_index numbers.now p < length clocks.old.items }
    requires some { MatchOption made (0 < next) (λ _. Unit {0}) }
    ensures { IsNumbered clocks.old.items numbers.now next made result clocks.new.items }
{
    match made {
        Some(clock) => {
            let number = clocks.len() as u32;
            clocks.push_reserved(clock);
            number
        }
        None => numbers[next as usize - 1],
    }
}

// Keeps the clock of step `j` and the skips that its walks leave, and notes the step in the rows at some places, and
// for the threads that it woke. The memory for it is there.
#[inline(always)]
fn enter(
    alloc: Global,
    run: &[Footprint],
    clocks: &mut Vec<Clock>,
    numbers: &mut Vec<u32>,
    wakers: &mut Wakers,
    hints: &mut Vec<u32>,
    rows: &mut Vec<Row>,
    links: &mut Vec<Link>,
    skips: &mut Vec<Skip>,
    next: u32,
    places: &[usize],
    slots: Slots,
    j: usize,
    made: Option<Clock>,
    left: Vec<Skip>,
)
    requires within { j < length run.now }
    requires few { length run.now < 2 ^ 32 }
    requires clocks { AreClocks run.now j clocks.old.items numbers.old.items }
    requires wakers { AreWakers run.now j j wakers.old.heads.items wakers.old.links.items }
    requires rows { AreRows run.now j rows.old.items links.old.items }
    requires skips { AreSkips run.now j links.old.items skips.old.items }
    requires places { ArePlaces (step_at run.now j) rows.old.items places.now }
    requires next { next ≤ j }
    requires made { IsMade run.now clocks.old.items numbers.old.items next made j }
    requires left { AreSkips run.now j links.old.items left.items }
    requires one_clock { OnSome made (vec_len clocks.old < vec_capacity clocks.old) }
    requires one_number { vec_len numbers.old < vec_capacity numbers.old }
    requires room { vec_len links.old + length places.now ≤ vec_capacity links.old }
    requires small { vec_len links.old + length places.now < 2 ^ 32 }
    requires woken { CanNote (step_at run.now j) wakers.old }
    requires table { 0 < vec_len left → vec_len skips.old < 8192 → 8192 ≤ vec_capacity skips.old }
    ensures clocks { AreClocks run.now (j + 1) clocks.new.items numbers.new.items }
    ensures wakers { AreWakers run.now (j + 1) (j + 1) wakers.new.heads.items wakers.new.links.items }
    ensures rows { AreRows run.now (j + 1) rows.new.items links.new.items }
    ensures keys { HaveKeysOf rows.old.items rows.new.items }
    ensures skips { AreSkips run.now (j + 1) links.new.items skips.new.items }
{
    let number = numbered(clocks, numbers.as_slice(), next, made);
    numbers.push_reserved(number);
    enter_wakes(run, wakers, j);
    note_hint(hints, slots, j);
    note_all(run, rows, links, places, j);
    store_all(alloc, skips, left);
}

// Adds step `j` of the run, and gives its greatest partner. Its clock is made by walks over the rows at some places,
// unless it is known that the step keeps that of the step before in its thread.
#[inline(never)]
fn add_walked(
    alloc: Global,
    run: &[Footprint],
    clocks: &mut Vec<Clock>,
    numbers: &mut Vec<u32>,
    latest: &mut Clock,
    wakers: &mut Wakers,
    hints: &mut Vec<u32>,
    rows: &mut Vec<Row>,
    links: &mut Vec<Link>,
    skips: &mut Vec<Skip>,
    found: &[usize],
    hint: Option<usize>,
    keeps: bool,
    places: &[usize],
    slots: Slots,
    j: usize,
) -> Result<Option<usize>, OutOfMemory>
    requires within { j < length run.now }
    requires few { length run.now < 2 ^ 32 }
    requires clocks { AreClocks run.now j clocks.old.items numbers.old.items }
    requires latest { AreLatest run.now j latest.old }
    requires wakers { AreWakers run.now j j wakers.old.heads.items wakers.old.links.items }
    requires rows { AreRows run.now j rows.old.items links.old.items }
    requires skips { AreSkips run.now j links.old.items skips.old.items }
    requires found { AreAllAsked (step_at run.now j) rows.old.items found.now }
    requires hint { IfSome hint (λ i. Edge run.now i j) }
    requires keeps { IsTrue keeps → KeepsClock run.now clocks.old.items numbers.old.items
        (slice_index latest.old (thread_at run.now j)) j }
    requires places { ArePlaces (step_at run.now j) rows.old.items places.now }
    ensures partner { IfOk result
        (λ o. MatchOption o (HasNoPartner run.now j) (λ i. IsGreatestPartner run.now i j)) }
    ensures clocks { OnOk result (AreClocks run.now (j + 1) clocks.new.items numbers.new.items) }
    ensures latest { OnOk result (AreLatest run.now (j + 1) latest.new) }
    ensures wakers { OnOk result (AreWakers run.now (j + 1) (j + 1) wakers.new.heads.items wakers.new.links.items) }
    ensures rows { OnOk result (AreRows run.now (j + 1) rows.new.items links.new.items) }
    ensures skips { OnOk result (AreSkips run.now (j + 1) links.new.items skips.new.items) }
    ensures keys { HaveKeysOf rows.old.items rows.new.items }
    ensures err_clocks { OnErr result (clocks.new.items ≡ clocks.old.items) }
    ensures err_numbers { OnErr result (numbers.new.items ≡ numbers.old.items) }
    ensures err_latest { OnErr result (latest.new ≡ latest.old) }
    ensures err_heads { OnErr result (AreExtended wakers.old.heads.items wakers.new.heads.items) }
    ensures err_wakings { OnErr result (wakers.new.links.items ≡ wakers.old.links.items) }
    ensures err_rows { OnErr result (rows.new.items ≡ rows.old.items) }
    ensures err_links { OnErr result (links.new.items ≡ links.old.items) }
    ensures err_skips { OnErr result (skips.new.items ≡ skips.old.items) }
{
    let next = latest.at(thread_at(run, j));
    let here = clock_of(
        alloc,
        run,
        clocks.as_slice(),
        numbers.as_slice(),
        &*latest,
        &*wakers,
        rows.as_slice(),
        links.as_slice(),
        skips.as_slice(),
        found,
        hint,
        keeps,
        j,
    )?;
    let partner = partner_by(
        run,
        clocks.as_slice(),
        numbers.as_slice(),
        rows.as_slice(),
        links.as_slice(),
        found,
        next,
        &here.clock,
        here.alone,
        j,
    );
    let (more, noted) = (here.skips.len(), places.len());
    fill_hints(hints)?;
    clocks.reserve(1)?;
    prepare(run, numbers, latest, wakers, links, skips, more, noted, j)?;
    enter(
        alloc, run, clocks, numbers, wakers, hints, rows, links, skips, next, places, slots, j,
        here.clock, here.skips,
    );
    Ok(partner)
}

// Adds step `j` of the run, which keeps the clock of the step before in its thread.
fn add_settled(
    alloc: Global,
    run: &[Footprint],
    clocks: &mut Vec<Clock>,
    numbers: &mut Vec<u32>,
    latest: &mut Clock,
    wakers: &mut Wakers,
    hints: &mut Vec<u32>,
    rows: &mut Vec<Row>,
    links: &mut Vec<Link>,
    skips: &mut Vec<Skip>,
    places: &[usize],
    slots: Slots,
    j: usize,
) -> Result<(), OutOfMemory>
    requires within { j < length run.now }
    requires few { length run.now < 2 ^ 32 }
    requires clocks { AreClocks run.now j clocks.old.items numbers.old.items }
    requires latest { AreLatest run.now j latest.old }
    requires wakers { AreWakers run.now j j wakers.old.heads.items wakers.old.links.items }
    requires rows { AreRows run.now j rows.old.items links.old.items }
    requires skips { AreSkips run.now j links.old.items skips.old.items }
    requires places { ArePlaces (step_at run.now j) rows.old.items places.now }
    requires keeps { KeepsClock run.now clocks.old.items numbers.old.items
        (slice_index latest.old (thread_at run.now j)) j }
    ensures clocks { OnOk result (AreClocks run.now (j + 1) clocks.new.items numbers.new.items) }
    ensures latest { OnOk result (AreLatest run.now (j + 1) latest.new) }
    ensures wakers { OnOk result (AreWakers run.now (j + 1) (j + 1) wakers.new.heads.items wakers.new.links.items) }
    ensures rows { OnOk result (AreRows run.now (j + 1) rows.new.items links.new.items) }
    ensures skips { OnOk result (AreSkips run.now (j + 1) links.new.items skips.new.items) }
    ensures keys { HaveKeysOf rows.old.items rows.new.items }
    ensures err_clocks { OnErr result (clocks.new.items ≡ clocks.old.items) }
    ensures err_numbers { OnErr result (numbers.new.items ≡ numbers.old.items) }
    ensures err_latest { OnErr result (latest.new ≡ latest.old) }
    ensures err_heads { OnErr result (AreExtended wakers.old.heads.items wakers.new.heads.items) }
    ensures err_wakings { OnErr result (wakers.new.links.items ≡ wakers.old.links.items) }
    ensures err_rows { OnErr result (rows.new.items ≡ rows.old.items) }
    ensures err_links { OnErr result (links.new.items ≡ links.old.items) }
    ensures err_skips { OnErr result (skips.new.items ≡ skips.old.items) }
{
    let next = latest.at(thread_at(run, j));
    prepare(
        run,
        numbers,
        latest,
        wakers,
        links,
        skips,
        0,
        places.len(),
        j,
    )?;
    let left = Vec::new(alloc);
    enter(
        alloc, run, clocks, numbers, wakers, hints, rows, links, skips, next, places, slots, j,
        None, left,
    );
    Ok(())
}

// Adds step `j` of the run, which asks the rows at some places and is noted in those at others, and gives its greatest
// partner. It takes its memory before it changes anything.
fn add_step(
    alloc: Global,
    run: &[Footprint],
    clocks: &mut Vec<Clock>,
    numbers: &mut Vec<u32>,
    latest: &mut Clock,
    wakers: &mut Wakers,
    hints: &mut Vec<u32>,
    rows: &mut Vec<Row>,
    links: &mut Vec<Link>,
    skips: &mut Vec<Skip>,
    found: &[usize],
    places: &[usize],
    slots: Slots,
    j: usize,
) -> Result<Option<usize>, OutOfMemory>
    requires within { j < length run.now }
    requires few { length run.now < 2 ^ 32 }
    requires clocks { AreClocks run.now j clocks.old.items numbers.old.items }
    requires latest { AreLatest run.now j latest.old }
    requires wakers { AreWakers run.now j j wakers.old.heads.items wakers.old.links.items }
    requires rows { AreRows run.now j rows.old.items links.old.items }
    requires skips { AreSkips run.now j links.old.items skips.old.items }
    requires found { AreAllAsked (step_at run.now j) rows.old.items found.now }
    requires places { ArePlaces (step_at run.now j) rows.old.items places.now }
    ensures partner { IfOk result
        (λ o. MatchOption o (HasNoPartner run.now j) (λ i. IsGreatestPartner run.now i j)) }
    ensures clocks { OnOk result (AreClocks run.now (j + 1) clocks.new.items numbers.new.items) }
    ensures latest { OnOk result (AreLatest run.now (j + 1) latest.new) }
    ensures wakers { OnOk result (AreWakers run.now (j + 1) (j + 1) wakers.new.heads.items wakers.new.links.items) }
    ensures rows { OnOk result (AreRows run.now (j + 1) rows.new.items links.new.items) }
    ensures skips { OnOk result (AreSkips run.now (j + 1) links.new.items skips.new.items) }
    ensures keys { HaveKeysOf rows.old.items rows.new.items }
    ensures err_clocks { OnErr result (clocks.new.items ≡ clocks.old.items) }
    ensures err_numbers { OnErr result (numbers.new.items ≡ numbers.old.items) }
    ensures err_latest { OnErr result (latest.new ≡ latest.old) }
    ensures err_heads { OnErr result (AreExtended wakers.old.heads.items wakers.new.heads.items) }
    ensures err_wakings { OnErr result (wakers.new.links.items ≡ wakers.old.links.items) }
    ensures err_rows { OnErr result (rows.new.items ≡ rows.old.items) }
    ensures err_links { OnErr result (links.new.items ≡ links.old.items) }
    ensures err_skips { OnErr result (skips.new.items ≡ skips.old.items) }
{
    let hint = hinted(
        run,
        clocks.as_slice(),
        numbers.as_slice(),
        &*latest,
        hints.as_slice(),
        slots,
        j,
    );
    let standing = standing_of(
        run,
        clocks.as_slice(),
        numbers.as_slice(),
        &*latest,
        &*wakers,
        rows.as_slice(),
        links.as_slice(),
        found,
        hint,
        j,
    );
    if !standing.settled {
        return add_walked(
            alloc,
            run,
            clocks,
            numbers,
            latest,
            wakers,
            hints,
            rows,
            links,
            skips,
            found,
            hint,
            standing.keeps,
            places,
            slots,
            j,
        );
    }
    add_settled(
        alloc, run, clocks, numbers, latest, wakers, hints, rows, links, skips, places, slots, j,
    )?;
    Ok(None)
}

/// Adds step `j` of the run, and gives its greatest partner. Where memory runs out, there may be rows without a step
/// behind those of before.
#[inline(always)]
pub(crate) fn add_last(
    alloc: Global,
    run: &[Footprint],
    clocks: &mut Vec<Clock>,
    numbers: &mut Vec<u32>,
    latest: &mut Clock,
    wakers: &mut Wakers,
    hints: &mut Vec<u32>,
    memos: &mut Vec<Memo>,
    index: &mut Index,
    rows: &mut Vec<Row>,
    links: &mut Vec<Link>,
    skips: &mut Vec<Skip>,
    j: usize,
) -> Result<Option<usize>, OutOfMemory>
    requires within { j < length run.now }
    requires few { length run.now < 2 ^ 32 }
    requires clocks { AreClocks run.now j clocks.old.items numbers.old.items }
    requires latest { AreLatest run.now j latest.old }
    requires wakers { AreWakers run.now j j wakers.old.heads.items wakers.old.links.items }
    requires rows { AreRows run.now j rows.old.items links.old.items }
    requires skips { AreSkips run.now j links.old.items skips.old.items }
    requires marked { AreMarked index.old.shelves.items index.old.marks.keys rows.old.items }
    requires memos { AreMemos rows.old.items memos.old.items }
    ensures partner { IfOk result
        (λ o. MatchOption o (HasNoPartner run.now j) (λ i. IsGreatestPartner run.now i j)) }
    ensures clocks { OnOk result (AreClocks run.now (j + 1) clocks.new.items numbers.new.items) }
    ensures latest { OnOk result (AreLatest run.now (j + 1) latest.new) }
    ensures wakers { OnOk result (AreWakers run.now (j + 1) (j + 1) wakers.new.heads.items wakers.new.links.items) }
    ensures rows { OnOk result (AreRows run.now (j + 1) rows.new.items links.new.items) }
    ensures skips { OnOk result (AreSkips run.now (j + 1) links.new.items skips.new.items) }
    ensures marked { AreMarked index.new.shelves.items index.new.marks.keys rows.new.items }
    ensures memos { AreMemos rows.new.items memos.new.items }
    ensures err_clocks { OnErr result (clocks.new.items ≡ clocks.old.items) }
    ensures err_numbers { OnErr result (numbers.new.items ≡ numbers.old.items) }
    ensures err_latest { OnErr result (latest.new ≡ latest.old) }
    ensures err_heads { OnErr result (AreExtended wakers.old.heads.items wakers.new.heads.items) }
    ensures err_wakings { OnErr result (wakers.new.links.items ≡ wakers.old.links.items) }
    ensures err_rows { OnErr result (IsGrown rows.old.items rows.new.items) }
    ensures err_links { OnErr result (links.new.items ≡ links.old.items) }
    ensures err_skips { OnErr result (skips.new.items ≡ skips.old.items) }
{
    let x = memo_of(alloc, run, memos, index, rows, j)?;
    let memo = &memos[x];
    add_step(
        alloc,
        run,
        clocks,
        numbers,
        latest,
        wakers,
        hints,
        rows,
        links,
        skips,
        memo.asked(),
        memo.noted(),
        memo.hint_slots(),
        j,
    )
}
