//! Whole runs.

ghost use Rattle.std.specs.Prelude.{◌≡◌, ℕ, ◌+◌, ◌<◌, ◌^◌, ◌↔◌, IsTrue, IfOk, length, slice_index_or, vec_len, false};
ghost use Rattle.mr_event.specs.Order.{HappensBefore};
ghost use Rattle.mr_event.specs.Predicted.{predicted};

use crate::analysis::Analysis;
use crate::whole::MOST_STEPS;
use mr_event::{Footprint, OutOfMemory, Pair, follows_plain, predicted_plain};
use std::alloc::Global;

/// The races that a run shows: each step that has a partner, with its greatest one, by rising second step. A partner of
/// a step is an earlier step that races with it and doesn't happen before it.
pub fn predicted_by_clocks(alloc: Global, run: &[Footprint]) -> Result<Vec<Pair>, OutOfMemory>
    ensures { IfOk result (λ v. v.items ≡ predicted run.now) }
{
    if run.len() > MOST_STEPS {
        return predicted_plain(alloc, run);
    }
    predicted_of(alloc, run)
}

// The same of a run whose steps have numbers of 32 bits.
#[tactic(auto, unfolding(mr_event::specs::Predicted::predicted))]
fn predicted_of(alloc: Global, run: &[Footprint]) -> Result<Vec<Pair>, OutOfMemory>
    requires { length run.now < 2 ^ 32 }
    ensures { IfOk result (λ v. v.items ≡ predicted run.now) }
{
    let mut analysis = Analysis::new(alloc);
    let mut pairs = Vec::new(alloc);
    for j in 0..run.len() {
        if let Some(first) = analysis.add(&run[..j + 1])? {
            pairs.push(Pair { first, second: j })?;
        }
    }
    Ok(pairs)
}

/// For each step of the run, whether the step at the place `first`, counted from 0, happens before it.
pub fn follows(alloc: Global, run: &[Footprint], first: usize) -> Result<Vec<bool>, OutOfMemory>
    requires { first < length run.now }
    ensures length { IfOk result (λ v. vec_len v ≡ length run.now) }
    ensures each { IfOk result
        (λ v. (k : ℕ) → k < length run.now → IsTrue (slice_index_or v.items k false) ↔ HappensBefore run.now first k) }
{
    if run.len() > MOST_STEPS {
        return follows_plain(alloc, run, first);
    }
    follows_of(alloc, run, first)
}

// The same of a run whose steps have numbers of 32 bits.
fn follows_of(alloc: Global, run: &[Footprint], first: usize) -> Result<Vec<bool>, OutOfMemory>
    requires first { first < length run.now }
    requires few { length run.now < 2 ^ 32 }
    ensures length { IfOk result (λ v. vec_len v ≡ length run.now) }
    ensures each { IfOk result
        (λ v. (k : ℕ) → k < length run.now → IsTrue (slice_index_or v.items k false) ↔ HappensBefore run.now first k) }
{
    let analysis = Analysis::of_run(alloc, run)?;
    let mut marked = Vec::new(alloc);
    for k in 0..run.len() {
        marked.push(analysis.orders(run, first, k))?;
    }
    Ok(marked)
}
