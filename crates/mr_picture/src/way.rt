//! The way from a step of a run to a later one.
ghost use Rattle.std.specs.Prelude.{◌≡◌, ◌+◌, ◌-◌, ◌<◌, ◌==◌, ◌&&◌, All, IfOk, IfSome, length, not};
ghost use Rattle.std.specs.List.{list_any, range_with_len};
ghost use Rattle.mr_base.specs.Accesses.{some_race};
ghost use Rattle.mr_event.specs.Footprints.{depends};
ghost use Rattle.mr_event.specs.Order.{step_at, thread_at as thread_of};
ghost use Rattle.mr_event.specs.Predicted.{has_edge, syncs};
ghost use Rattle.mr_clocks.specs.Tracked.{Tracks};
ghost use Rattle.mr_picture.specs.Way.{leads, next_step, way};

use crate::OutOfMemory;
use crate::order::is_before;
use mr_clocks::Analysis;
use mr_event::{Footprint, step_depends, step_races, step_wakes, thread_at};
use std::alloc::Global;

// Whether no step between two others is of the thread of the second.
fn is_first_behind(run: &[Footprint], i: usize, j: usize) -> bool
    requires first { i < length run.now }
    requires second { j < length run.now }
    ensures { result ≡ not (list_any (λ k. thread_of run.now k == thread_of run.now j)
        (range_with_len (i + 1) (j - (i + 1)))) }
{
    for k in i + 1..j {
        if thread_at(run, k) == thread_at(run, j) {
            return false;
        }
    }
    true
}

/// Whether two steps are synchronised: the first woke or started the second's thread, and the second is that thread's
/// first step behind it.
pub(crate) fn syncs(run: &[Footprint], i: usize, j: usize) -> bool
    requires first { i < length run.now }
    requires second { j < length run.now }
    ensures { result ≡ syncs run.now i j }
{
    i < j && step_wakes(run, i, thread_at(run, j)) && is_first_behind(run, i, j)
}

// Whether a step depends on an earlier one, and they don't race.
fn is_bound(run: &[Footprint], i: usize, j: usize) -> bool
    requires first { i < length run.now }
    requires second { j < length run.now }
    ensures { result ≡ (depends (step_at run.now i) (step_at run.now j)
        && not (some_race (step_at run.now i).accesses (step_at run.now j).accesses)) }
{
    step_depends(run, i, j) && !step_races(run, i, j)
}

// Whether there is an edge from a step to another.
fn has_edge(run: &[Footprint], i: usize, j: usize) -> bool
    requires first { i < length run.now }
    requires second { j < length run.now }
    ensures { result ≡ has_edge run.now i j }
{
    i < j && (thread_at(run, i) == thread_at(run, j) || syncs(run, i, j) || is_bound(run, i, j))
}

// Whether a step leads on from one to another.
fn leads(run: &[Footprint], order: &Analysis, i: usize, j: usize, k: usize) -> bool
    requires first { i < length run.now }
    requires second { j < length run.now }
    requires between { k < length run.now }
    requires tracks { Tracks order.now run.now }
    ensures { result ≡ leads run.now i j k }
{
    has_edge(run, i, k) && (k == j || is_before(run, order, k, j))
}

// The greatest step that leads on.
fn next_step(run: &[Footprint], order: &Analysis, i: usize, j: usize) -> Option<usize>
    requires first { i < length run.now }
    requires second { j < length run.now }
    requires tracks { Tracks order.now run.now }
    ensures is { result ≡ next_step run.now i j }
    ensures within { IfSome result (λ k. k < length run.now) }
{
    if leads(run, order, i, j, j) {
        return Some(j);
    }
    let mut left = j;
    while left > 0 {
        left -= 1;
        if leads(run, order, i, j, left) {
            return Some(left);
        }
    }
    None
}

/// The way from a step to a later one: the steps behind it, each with an edge from the one before. There is none where the
/// one doesn't happen before the other. An `Err` is for want of memory.
pub fn way_to(
    alloc: Global,
    run: &[Footprint],
    order: &Analysis,
    i: usize,
    j: usize,
) -> Result<Vec<usize>, OutOfMemory>
    requires first { i < length run.now }
    requires second { j < length run.now }
    requires tracks { Tracks order.now run.now }
    ensures way { IfOk result (λ steps. steps.items ≡ way run.now i j) }
    ensures within { IfOk result (λ steps. All (λ k. k < length run.now) steps.items) }
{
    let mut steps = Vec::new(alloc);
    let mut at = i;
    let mut left = j.saturating_sub(i);
    while left > 0 {
        left -= 1;
        if at == j {
            return Ok(steps);
        }
        match next_step(run, order, at, j) {
            Some(next) => {
                steps.push(next)?;
                at = next;
            }
            None => return Ok(steps),
        }
    }
    Ok(steps)
}
