//! The races that a run shows: each two steps are compared, and ordered by clocks.

ghost use Rattle.std.specs.Prelude.{◌≡◌, ◌<◌, ◌↔◌, IsFalse, IsTrue, IfOk, MatchOption, length};
ghost use Rattle.mr_event.specs.Clocks.{AreClocks, AreSlots, IsClock};
ghost use Rattle.mr_event.specs.Order.{AreRivals, HasNoPartner, HasNoRivalBelow, IsGreatestPartner};
ghost use Rattle.mr_event.specs.Predicted.{predicted};

use crate::OutOfMemory;
use crate::clocks::{Clock, Slots, extend, is_below, slots_of};
use crate::footprint::{Footprint, Pair};
use crate::steps::{step_races, thread_at};
use std::alloc::Global;

// Whether the steps are of two threads and some of their accesses race.
fn are_rivals(run: &[Footprint], i: usize, j: usize) -> bool
    requires first { i < length run.now }
    requires second { j < length run.now }
    ensures { IsTrue result ↔ AreRivals run.now i j }
{
    thread_at(run, i) != thread_at(run, j) && step_races(run, i, j)
}

// Whether some step before `j` could be its partner.
fn has_rival(run: &[Footprint], j: usize) -> bool
    requires { j < length run.now }
    ensures { IsFalse result → HasNoRivalBelow run.now j j }
{
    for i in 0..j {
        if are_rivals(run, i, j) {
            return true;
        }
    }
    false
}

// The greatest partner of step `j`, whose clock is known.
fn partner_by(run: &[Footprint], slots: &Slots, clock: &Clock, j: usize) -> Option<usize>
    requires slots { AreSlots run.now slots.now.of.items slots.now.count }
    requires width { length clock.now ≡ slots.now.count }
    requires clock { IsClock run.now slots.now.of.items clock.now j }
    requires within { j < length run.now }
    ensures { MatchOption result (HasNoPartner run.now j) (λ i. IsGreatestPartner run.now i j) }
{
    for i in (0..j).rev() {
        if !is_below(slots, clock, i) && are_rivals(run, i, j) {
            return Some(i);
        }
    }
    None
}

// The greatest partner of step `j`. Clocks are made only where some earlier step could be one.
fn greatest_partner(
    alloc: Global,
    run: &[Footprint],
    slots: &Slots,
    clocks: &mut Vec<Clock>,
    j: usize,
) -> Result<Option<usize>, OutOfMemory>
    requires slots { AreSlots run.now slots.now.of.items slots.now.count }
    requires clocks { AreClocks run.now slots.now.of.items slots.now.count clocks.now.items }
    requires within { j < length run.now }
    ensures clocks { IfOk result (λ o. AreClocks run.now slots.now.of.items slots.now.count clocks.new.items) }
    ensures partner { IfOk result (λ o. MatchOption o (HasNoPartner run.now j) (λ i. IsGreatestPartner run.now i j)) }
{
    if !has_rival(run, j) {
        return Ok(None);
    }
    extend(alloc, run, slots, clocks, j)?;
    Ok(partner_by(run, slots, &clocks[j], j))
}

/// The races that a run shows: each step that has a partner, with its greatest one, by rising second step. A partner of a
/// step is an earlier step that races with it and doesn't happen before it.
#[tactic(auto, unfolding(crate::specs::Predicted::predicted))]
pub fn predicted_plain(alloc: Global, run: &[Footprint]) -> Result<Vec<Pair>, OutOfMemory>
    ensures { IfOk result (λ v. v.items ≡ predicted run.now) }
{
    let slots = slots_of(alloc, run)?;
    let mut clocks = Vec::new(alloc);
    let mut pairs = Vec::new(alloc);
    for j in 0..run.len() {
        if let Some(first) = greatest_partner(alloc, run, &slots, &mut clocks, j)? {
            pairs.push(Pair { first, second: j })?;
        }
    }
    Ok(pairs)
}
