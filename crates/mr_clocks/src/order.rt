//! Edges and races of two steps of a run, by their footprints.

ghost use Rattle.std.specs.Prelude.{◌≡◌, ◌≢◌, ◌<◌, ◌≤◌, ◌↔◌, IsTrue, true, false, length};
ghost use Rattle.mr_base.specs.Accesses.{some_race as has_race};
ghost use Rattle.mr_event.specs.Footprints.{depends as is_dependent, wakes as is_waking};
ghost use Rattle.mr_event.specs.Order.{step_at, thread_at, AreRivals, Edge};
ghost use Rattle.mr_clocks.specs.Tracked.{IsNext};

use mr_event::{Footprint, step_depends, step_races, step_wakes, thread_at};

// Whether step `i` woke or created the thread of step `j` and is not before `next`.
fn is_woken_by(run: &[Footprint], i: usize, j: usize, next: usize) -> bool
    requires first { i < length run.now }
    requires second { j < length run.now }
    ensures { IsTrue result ↔ (next ≤ i) × (is_waking (step_at run.now i) (thread_at run.now j) ≡ true) }
{
    next <= i && step_wakes(run, i, thread_at(run, j))
}

// Whether step `j` depends on step `i`, and they don't race.
fn is_bound_by(run: &[Footprint], i: usize, j: usize) -> bool
    requires first { i < length run.now }
    requires second { j < length run.now }
    ensures { IsTrue result ↔ (is_dependent (step_at run.now i) (step_at run.now j) ≡ true)
        × (has_race (step_at run.now i).accesses (step_at run.now j).accesses ≡ false) }
{
    step_depends(run, i, j) && !step_races(run, i, j)
}

/// Whether there is an edge from step `i` to step `j` of another thread, of which the step before comes directly before
/// `next`.
pub(crate) fn edge(run: &[Footprint], i: usize, j: usize, next: usize) -> bool
    requires order { i < j }
    requires within { j < length run.now }
    requires apart { thread_at run.now i ≢ thread_at run.now j }
    requires next { IsNext run.now j next }
    ensures { IsTrue result ↔ Edge run.now i j }
{
    is_woken_by(run, i, j, next) || is_bound_by(run, i, j)
}

/// Whether the steps are of two threads and some of their accesses race.
pub fn are_rivals(run: &[Footprint], i: usize, j: usize) -> bool
    requires first { i < length run.now }
    requires second { j < length run.now }
    ensures { IsTrue result ↔ AreRivals run.now i j }
{
    thread_at(run, i) != thread_at(run, j) && step_races(run, i, j)
}
