//! What happens before what in a run, by comparing all steps.

ghost use Rattle.std.specs.Prelude.{◌≡◌, ℕ, ◌+◌, ◌<◌, ◌≤◌, ◌↔◌, IsTrue, IfOk, length, slice_index_or, vec_len, false};
ghost use Rattle.mr_event.specs.Order.{thread_at, Sync, Edge, HappensBefore, HasLink};

use crate::OutOfMemory;
use crate::footprint::Footprint;
use crate::steps::{step_depends, step_races, step_wakes, thread_at};
use std::alloc::Global;

// Whether step `i` woke the thread of step `j` and `j` is that thread's first step after `i`.
fn synced(run: &[Footprint], i: usize, j: usize) -> bool
    requires order { i < j }
    requires within { j < length run.now }
    ensures { IsTrue result ↔ Sync run.now i j }
{
    let thread = thread_at(run, j);
    if !step_wakes(run, i, thread) {
        return false;
    }
    for k in i + 1..j {
        if thread_at(run, k) == thread {
            return false;
        }
    }
    true
}

// Whether there is an edge from step `i` to step `j`.
pub(crate) fn edge(run: &[Footprint], i: usize, j: usize) -> bool
    requires order { i < j }
    requires within { j < length run.now }
    ensures { IsTrue result ↔ Edge run.now i j }
{
    thread_at(run, i) == thread_at(run, j)
        || synced(run, i, j)
        || (step_depends(run, i, j) && !step_races(run, i, j))
}

// Whether an edge to step `k` comes from a step that is marked.
fn linked(run: &[Footprint], marked: &[bool], k: usize) -> bool
    requires marks { length marked.now ≡ k }
    requires within { k < length run.now }
    ensures { IsTrue result ↔ HasLink run.now marked.now k }
{
    for m in 0..k {
        if marked[m] && edge(run, m, k) {
            return true;
        }
    }
    false
}

/// For each step of the run, whether the step at the place `first`, counted from 0, happens before it. (Lamport.)
pub fn follows_plain(
    alloc: Global,
    run: &[Footprint],
    first: usize,
) -> Result<Vec<bool>, OutOfMemory>
    requires { first < length run.now }
    ensures length { IfOk result (λ v. vec_len v ≡ length run.now) }
    ensures each { IfOk result
        (λ v. (k : ℕ) → k < length run.now → IsTrue (slice_index_or v.items k false) ↔ HappensBefore run.now first k) }
{
    let mut marked = Vec::new(alloc);
    for k in 0..run.len() {
        let follows = k > first && (edge(run, first, k) || linked(run, &marked, k));
        marked.push(follows)?;
    }
    Ok(marked)
}
