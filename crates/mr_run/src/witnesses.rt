//! The witness for a race of a run.
ghost use Rattle.std.specs.Prelude.{◌≡◌, ◌≤◌, Contains, IfOk, length};
ghost use Rattle.mr_event.specs.Predicted.{predicted};
ghost use Rattle.mr_run.specs.Witnesses.{race_of, witness_by, witness_for};

use mr_event::{Footprint, OutOfMemory, Pair};
use mr_sched::Schedule;
use mr_witness::{short, witness};
use std::alloc::Global;

/// Which entries of the schedule a witness takes.
#[derive(Clone, Copy, Debug, PartialEq, Eq)]
pub enum Selection {
    /// All that the race's first step doesn't happen before.
    Kept,
    /// Those alone that its steps need.
    Needed,
}

/// The race that is listed for a step, counted from 0.
pub fn race_of(races: &[Pair], step: usize) -> Option<Pair>
    ensures { result ≡ race_of step races.now }
{
    for pair in races {
        if pair.second == step {
            return Some(*pair);
        }
    }
    None
}

/// The schedule of a race of a run under a schedule: the kept or the short one.
pub fn witness_by(
    alloc: Global,
    selection: Selection,
    steps: &[Footprint],
    w: &Schedule,
    pair: Pair,
) -> Result<Schedule, OutOfMemory>
    requires many { length steps.now ≤ length w.now.entries }
    requires listed { Contains (predicted steps.now) pair }
    ensures { IfOk result (λ v. v ≡ witness_by selection steps.now w.now pair.first pair.second) }
{
    match selection {
        Selection::Kept => witness(alloc, steps, w, pair),
        Selection::Needed => short(alloc, steps, w, pair),
    }
}

/// The witness for the first of the races of a run under a schedule, where there is one.
pub fn first_witness(
    alloc: Global,
    selection: Selection,
    steps: &[Footprint],
    w: &Schedule,
    races: &[Pair],
) -> Result<Option<Schedule>, OutOfMemory>
    requires many { length steps.now ≤ length w.now.entries }
    requires races { races.now ≡ predicted steps.now }
    ensures { IfOk result (λ v. v ≡ witness_for selection steps.now w.now races.now) }
{
    match races.first() {
        Some(pair) => Ok(Some(witness_by(alloc, selection, steps, w, *pair)?)),
        None => Ok(None),
    }
}
