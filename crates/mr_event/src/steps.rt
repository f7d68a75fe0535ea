//! The steps of a run by their places in it.
//!
//! Each call reads the step at the place `i` or `j`, counted from 0.

ghost use Rattle.std.specs.Prelude.{◌≡◌, ◌<◌, length};
ghost use Rattle.mr_base.specs.Accesses.{some_race as has_race};
ghost use Rattle.mr_event.specs.Footprints.{depends as is_dependent, wakes as is_waking};
ghost use Rattle.mr_event.specs.Order.{step_at, thread_at};

use crate::dependence::{depends, wakes};
use crate::footprint::Footprint;
use mr_base::some_race;

/// The thread of a step.
#[tactic(auto, using(crate::proofs::Read::step_read))]
pub fn thread_at(run: &[Footprint], i: usize) -> u32
    requires { i < length run.now }
    ensures { result ≡ thread_at run.now i }
{
    let step = &run[i];
    step.thread()
}

/// Whether a step woke or created a thread.
#[tactic(auto, using(crate::proofs::Read::step_read))]
pub fn step_wakes(run: &[Footprint], i: usize, thread: u32) -> bool
    requires { i < length run.now }
    ensures { result ≡ is_waking (step_at run.now i) thread }
{
    let step = &run[i];
    wakes(step, thread)
}

/// Whether the step `j` depends on the step `i`.
#[tactic(auto, using(crate::proofs::Read::step_read))]
pub fn step_depends(run: &[Footprint], i: usize, j: usize) -> bool
    requires first { i < length run.now }
    requires second { j < length run.now }
    ensures { result ≡ is_dependent (step_at run.now i) (step_at run.now j) }
{
    let first = &run[i];
    let second = &run[j];
    depends(first, second)
}

/// Whether some accesses of the two steps race.
#[tactic(auto, using(crate::proofs::Read::step_read))]
pub fn step_races(run: &[Footprint], i: usize, j: usize) -> bool
    requires first { i < length run.now }
    requires second { j < length run.now }
    ensures { result ≡ has_race (step_at run.now i).accesses (step_at run.now j).accesses }
{
    let first = &run[i];
    let second = &run[j];
    some_race(first.accesses(), second.accesses())
}
