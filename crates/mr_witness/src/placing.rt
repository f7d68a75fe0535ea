//! The order that is drawn from a number, one step in each turn.

ghost use Rattle.std.specs.Prelude.{◌≡◌, ◌+◌, ◌<◌, ◌≤◌, ◌^◌, ℕ, IfOk, [], length, slice_index_or, true};
ghost use Rattle.mr_event.specs.Order.{places};
ghost use Rattle.mr_clocks.specs.Whole.{IsOrderOf};
ghost use Rattle.mr_witness.specs.Board.{IsBoard, IsNextOf, left_of};
ghost use Rattle.mr_witness.specs.Shuffled.{above_threads, earliest_of, is_ready, ready_threads, shuffled_order, step_or_first, without};

use mr_clocks::RunOrder;
use mr_event::{Footprint, OutOfMemory, thread_at};
use mr_sched::Chooser;
use std::alloc::Global;

// A number above those of all threads.
fn above_threads(run: &[Footprint]) -> usize
    ensures above { result ≡ above_threads run.now }
    ensures limit { result ≤ 2 ^ 32 }
{
    let mut above = 0;
    for step in run {
        above = above.max(step.thread() as usize + 1);
    }
    above
}

// The place of the first step of the thread from a place on, or the number of steps where there is none.
fn next_of(run: &[Footprint], thread: u32, from: usize) -> usize
    requires { from ≤ length run.now }
    ensures { IsNextOf run.now thread from result }
{
    for k in from..run.len() {
        if thread_at(run, k) == thread {
            return k;
        }
    }
    run.len()
}

// The same from behind a step on.
fn next_behind(run: &[Footprint], thread: u32, step: usize) -> usize
    requires { step < length run.now }
    ensures { IsNextOf run.now thread (step + 1) result }
{
    next_of(run, thread, step + 1)
}

// The first step of each thread.
fn fronts_of(alloc: Global, run: &[Footprint]) -> Result<Vec<usize>, OutOfMemory>
    ensures width { IfOk result (λ v. length v.items ≡ above_threads run.now) }
    ensures limit { IfOk result (λ v. length v.items ≤ 2 ^ 32) }
    ensures each { IfOk result
        (λ v. (t : ℕ) → t < above_threads run.now → IsNextOf run.now t 0 (slice_index_or v.items t 0)) }
{
    let mut fronts = Vec::new(alloc);
    for thread in 0..above_threads(run) {
        let front = next_of(run, thread as u32, 0);
        fronts.push(front)?;
    }
    Ok(fronts)
}

// Whether the thread has a step that is left, and all that happens before the earliest one is placed.
fn is_open(
    alloc: Global,
    run: &[Footprint],
    before: &RunOrder,
    fronts: &[usize],
    thread: usize,
) -> Result<bool, OutOfMemory>
    requires fronts { IsBoard run.now fronts.now }
    requires before { IsOrderOf before.now run.now }
    requires thread { thread < length fronts.now }
    ensures { IfOk result (λ b. b ≡ is_ready run.now (left_of run.now fronts.now) thread) }
{
    let front = fronts[thread];
    if front >= run.len() {
        return Ok(false);
    }
    let opened = before.is_ready(alloc, run, front, fronts)?;
    Ok(opened)
}

// The threads of which the earliest step that is left may be placed, by rising number.
fn ready_of(
    alloc: Global,
    run: &[Footprint],
    before: &RunOrder,
    fronts: &[usize],
) -> Result<Vec<u32>, OutOfMemory>
    requires fronts { IsBoard run.now fronts.now }
    requires before { IsOrderOf before.now run.now }
    ensures { IfOk result (λ v. v.items ≡ ready_threads run.now (left_of run.now fronts.now)) }
{
    let mut ready = Vec::new(alloc);
    for thread in 0..fronts.len() {
        let opened = is_open(alloc, run, before, fronts, thread)?;
        if opened {
            ready.push(thread as u32)?;
        }
    }
    Ok(ready)
}

// Takes the earliest step that is left of a ready thread.
fn taken(run: &[Footprint], fronts: &mut Vec<usize>, thread: u32) -> usize
    requires fronts { IsBoard run.now fronts.old.items }
    requires thread { thread < above_threads run.now }
    requires ready { is_ready run.now (left_of run.now fronts.old.items) thread ≡ true }
    ensures fronts { IsBoard run.now fronts.new.items }
    ensures step { result ≡ step_or_first (earliest_of run.now (left_of run.now fronts.old.items) thread) }
    ensures left { left_of run.now fronts.new.items ≡ without (step_or_first
        (earliest_of run.now (left_of run.now fronts.old.items) thread)) (left_of run.now fronts.old.items) }
{
    let number = thread as usize;
    let step = fronts[number];
    fronts[number] = next_behind(run, thread, step);
    step
}

/// The order of the steps of a run that is drawn from a number.
#[tactic(auto, unfolding(crate::specs::Shuffled::shuffled_order))]
pub(crate) fn shuffled_order(
    alloc: Global,
    run: &[Footprint],
    number: u64,
) -> Result<Vec<usize>, OutOfMemory>
    ensures { IfOk result (λ v. v.items ≡ shuffled_order run.now number) }
{
    let mut chooser = Chooser::new(number);
    let before = RunOrder::of_run(alloc, run)?;
    let mut fronts = fronts_of(alloc, run)?;
    let mut order = Vec::new(alloc);
    for _turn in 0..run.len() {
        let ready = ready_of(alloc, run, &before, fronts.as_slice())?;
        let thread = chooser.thread(ready.as_slice());
        let step = taken(run, &mut fronts, thread);
        order.push(step)?;
    }
    Ok(order)
}
