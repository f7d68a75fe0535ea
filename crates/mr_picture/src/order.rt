//! The order of a run.
ghost use Rattle.std.specs.Prelude.{◌≡◌, ◌+◌, ◌-◌, ◌<◌, length};
ghost use Rattle.std.specs.List.{list_any};
ghost use Rattle.mr_event.specs.Footprints.{wakes as is_waking};
ghost use Rattle.mr_event.specs.Order.{step_at, thread_at as thread_of};
ghost use Rattle.mr_event.specs.Predicted.{happens_before};
ghost use Rattle.mr_clocks.specs.Tracked.{Tracks};
ghost use Rattle.mr_picture.specs.Arrows.{inside, is_arrow, lies_between};

use mr_clocks::Analysis;
use mr_event::{Footprint, thread_at, wakes};

/// Whether a step happens before another one.
pub(crate) fn is_before(run: &[Footprint], order: &Analysis, i: usize, k: usize) -> bool
    requires first { i < length run.now }
    requires second { k < length run.now }
    requires tracks { Tracks order.now run.now }
    ensures { result ≡ happens_before run.now i k }
{
    order.orders(run, i, k)
}

// Whether a step lies between two others.
fn lies_between(run: &[Footprint], order: &Analysis, i: usize, j: usize, k: usize) -> bool
    requires first { i < length run.now }
    requires second { j < length run.now }
    requires between { k < length run.now }
    requires tracks { Tracks order.now run.now }
    ensures { result ≡ lies_between run.now i j k }
{
    is_before(run, order, i, k) && is_before(run, order, k, j)
}

// Whether some step lies between two others.
fn has_between(run: &[Footprint], order: &Analysis, i: usize, j: usize) -> bool
    requires first { i < length run.now }
    requires second { j < length run.now }
    requires tracks { Tracks order.now run.now }
    ensures { result ≡ list_any (lies_between run.now i j) (inside i j) }
{
    for k in i + 1..j {
        if lies_between(run, order, i, j, k) {
            return true;
        }
    }
    false
}

/// Whether an arrow is drawn from one step to another.
pub(crate) fn is_arrow(run: &[Footprint], order: &Analysis, i: usize, j: usize) -> bool
    requires first { i < length run.now }
    requires second { j < length run.now }
    requires tracks { Tracks order.now run.now }
    ensures { result ≡ is_arrow run.now i j }
{
    thread_at(run, i) != thread_at(run, j)
        && is_before(run, order, i, j)
        && !has_between(run, order, i, j)
}

/// Whether a step woke or started the thread of another one.
#[tactic(auto, using(mr_event::proofs::Read::step_read))]
pub fn wakes_thread(run: &[Footprint], i: usize, j: usize) -> bool
    requires first { i < length run.now }
    requires second { j < length run.now }
    ensures { result ≡ is_waking (step_at run.now i) (thread_of run.now j) }
{
    let first = &run[i];
    wakes(first, thread_at(run, j))
}
