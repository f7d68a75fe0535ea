//! Where a way over steps of a run leaves Rust's order.

ghost use Rattle.std.specs.Prelude.{◌≡◌, ◌<◌, ◌≤◌, All, IfOk, IfSome, OnOk, length};
ghost use Rattle.mr_rust_order.specs.Gaps.{first_gap};
ghost use Rattle.mr_rust_order.specs.Tests.{happens_before};
ghost use Rattle.mr_rust_order.specs.Tracked.{Tracks};

use crate::analysis::Analysis;
use mr_event::{Footprint, OutOfMemory, Pair};
use std::alloc::Global;

// Adds the steps from a step on and before another one, to an analysis of those before them.
fn add_steps(
    analysis: &mut Analysis,
    run: &[Footprint],
    from: usize,
    to: usize,
) -> Result<(), OutOfMemory>
    requires rising { from ≤ to }
    requires within { to ≤ length run.now }
    requires tracks { Tracks run.now from analysis.old }
    ensures { OnOk result (Tracks run.now to analysis.new) }
{
    for k in from..to {
        let _race = analysis.add(run, k)?;
    }
    Ok(())
}

// Makes an analysis of the first steps one of those before a step.
fn move_to(
    alloc: Global,
    analysis: &mut Analysis,
    run: &[Footprint],
    known: usize,
    j: usize,
) -> Result<(), OutOfMemory>
    requires within { j ≤ length run.now }
    requires tracks { Tracks run.now known analysis.old }
    ensures { OnOk result (Tracks run.now j analysis.new) }
{
    if known <= j {
        return add_steps(analysis, run, known, j);
    }
    *analysis = Analysis::new(alloc)?;
    add_steps(analysis, run, 0, j)
}

// Whether one step happens before another, by an analysis of the first steps, which then is one of those before the
// second.
fn is_before(
    alloc: Global,
    analysis: &mut Analysis,
    run: &[Footprint],
    known: usize,
    i: usize,
    j: usize,
) -> Result<bool, OutOfMemory>
    requires first { i < length run.now }
    requires second { j < length run.now }
    requires tracks { Tracks run.now known analysis.old }
    ensures before { IfOk result (λ b. b ≡ happens_before run.now i j) }
    ensures tracks { OnOk result (Tracks run.now j analysis.new) }
{
    move_to(alloc, analysis, run, known, j)?;
    let before = analysis.orders(run, i, j)?;
    Ok(before)
}

/// The first link of a way from a step over later ones that isn't in Rust's order: its first step doesn't happen before
/// its second. An `Err` is for want of memory.
pub fn first_gap(
    alloc: Global,
    run: &[Footprint],
    from: usize,
    way: &[usize],
) -> Result<Option<Pair>, OutOfMemory>
    requires first { from < length run.now }
    requires way { All (λ k. k < length run.now) way.now }
    ensures gap { IfOk result (λ o. o ≡ first_gap run.now from way.now) }
    ensures within { IfOk result
        (λ o. IfSome o (λ link. (link.first < length run.now) × (link.second < length run.now))) }
{
    let mut analysis = Analysis::new(alloc)?;
    let mut known = 0;
    let mut at = from;
    for step in way {
        if !is_before(alloc, &mut analysis, run, known, at, *step)? {
            return Ok(Some(Pair {
                first: at,
                second: *step,
            }));
        }
        known = *step;
        at = *step;
    }
    Ok(None)
}
