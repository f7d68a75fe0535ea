//! The order of a whole run, of any length.

ghost use Rattle.std.specs.Prelude.{◌≡◌, ℕ, ◌<◌, ◌↔◌, All, IsTrue, IfOk, length, slice_index_or, vec_len, false};
ghost use Rattle.mr_event.specs.Order.{HappensBefore, thread_at};
ghost use Rattle.mr_clocks.specs.Whole.{AreFronts, IsNeeded, IsOrderOf, IsReady, front_of};

use crate::analysis::Analysis;
use mr_event::{Footprint, OutOfMemory, follows_plain, thread_at};
use std::alloc::Global;

// The times of a clock have 32 bits.
pub(crate) const MOST_STEPS: usize = 0xffff_ffff;

/// The front of the thread of step `k`, or the number of steps where the list has none.
pub(crate) fn front_at(run: &[Footprint], fronts: &[usize], k: usize) -> usize
    requires { k < length run.now }
    ensures { result ≡ front_of run.now fronts.now (thread_at run.now k) }
{
    match fronts.get(thread_at(run, k) as usize) {
        Some(front) => *front,
        None => run.len(),
    }
}

// Whether step `i` happens before step `k`, from the run alone.
fn is_before_plain(
    alloc: Global,
    run: &[Footprint],
    i: usize,
    k: usize,
) -> Result<bool, OutOfMemory>
    requires first { i < length run.now }
    requires second { k < length run.now }
    ensures { IfOk result (λ b. IsTrue b ↔ HappensBefore run.now i k) }
{
    let marks = follows_plain(alloc, run, i)?;
    Ok(marks[k])
}

// Whether all that happens before step `k` lies before the fronts, from the run alone.
fn is_ready_plain(
    alloc: Global,
    run: &[Footprint],
    k: usize,
    fronts: &[usize],
) -> Result<bool, OutOfMemory>
    requires { k < length run.now }
    ensures { IfOk result (λ b. IsTrue b ↔ IsReady run.now fronts.now k) }
{
    for a in 0..k {
        if a >= front_at(run, fronts, a) && is_before_plain(alloc, run, a, k)? {
            return Ok(false);
        }
    }
    Ok(true)
}

// Whether step `k` is one of these or happens before one, from the run alone.
fn is_needed_plain(
    alloc: Global,
    run: &[Footprint],
    steps: &[usize],
    k: usize,
) -> Result<bool, OutOfMemory>
    requires step { k < length run.now }
    requires steps { All (λ s. s < length run.now) steps.now }
    ensures { IfOk result (λ b. IsTrue b ↔ IsNeeded run.now steps.now k) }
{
    let marks = follows_plain(alloc, run, k)?;
    for x in 0..steps.len() {
        if k == steps[x] || marks[steps[x]] {
            return Ok(true);
        }
    }
    Ok(false)
}

// For each step whether it is one of these or happens before one, from the run alone.
fn needed_plain(alloc: Global, run: &[Footprint], steps: &[usize]) -> Result<Vec<bool>, OutOfMemory>
    requires { All (λ s. s < length run.now) steps.now }
    ensures length { IfOk result (λ v. vec_len v ≡ length run.now) }
    ensures each { IfOk result
        (λ v. (k : ℕ) → k < length run.now → IsTrue (slice_index_or v.items k false) ↔ IsNeeded run.now steps.now k) }
{
    let mut marks = Vec::new(alloc);
    for k in 0..run.len() {
        let is_needed = is_needed_plain(alloc, run, steps, k)?;
        marks.push(is_needed)?;
    }
    Ok(marks)
}

/// What happens before what in a run of any length. It is told by an analysis of the run; from 2^32 steps on by the run
/// alone, in the plain way, which compares all steps.
#[derive(Drop)]
pub struct RunOrder {
    clocks: Option<Analysis>,
}

impl RunOrder {
    /// The order of a run.
    pub fn of_run(alloc: Global, run: &[Footprint]) -> Result<RunOrder, OutOfMemory>
        ensures { IfOk result (λ o. IsOrderOf o run.now) }
    {
        if run.len() > MOST_STEPS {
            return Ok(RunOrder { clocks: None });
        }
        let analysis = Analysis::of_run(alloc, run)?;
        Ok(RunOrder {
            clocks: Some(analysis),
        })
    }

    /// [`Analysis::is_ready`].
    pub fn is_ready(
        &self,
        alloc: Global,
        run: &[Footprint],
        k: usize,
        fronts: &[usize],
    ) -> Result<bool, OutOfMemory>
        requires step { k < length run.now }
        requires fronts { AreFronts run.now fronts.now }
        requires order { IsOrderOf self.now run.now }
        ensures { IfOk result (λ b. IsTrue b ↔ IsReady run.now fronts.now k) }
    {
        match &self.clocks {
            Some(analysis) => Ok(analysis.is_ready(run, k, fronts)),
            None => is_ready_plain(alloc, run, k, fronts),
        }
    }

    /// [`Analysis::needed`].
    pub fn needed(
        &self,
        alloc: Global,
        run: &[Footprint],
        steps: &[usize],
    ) -> Result<Vec<bool>, OutOfMemory>
        requires steps { All (λ s. s < length run.now) steps.now }
        requires order { IsOrderOf self.now run.now }
        ensures length { IfOk result (λ v. vec_len v ≡ length run.now) }
        ensures each { IfOk result (λ v. (k : ℕ) → k < length run.now
            → IsTrue (slice_index_or v.items k false) ↔ IsNeeded run.now steps.now k) }
    {
        match &self.clocks {
            Some(analysis) => analysis.needed(alloc, run, steps),
            None => needed_plain(alloc, run, steps),
        }
    }
}
