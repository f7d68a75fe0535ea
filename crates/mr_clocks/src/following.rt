//! Following a step: it, and all that happens before it, comes under the clock of a later step.

ghost use Rattle.std.specs.Prelude.{ℕ, ◌<◌, ◌^◌, OnOk, length};
ghost use Rattle.mr_event.specs.Order.{Edge};
ghost use Rattle.mr_clocks.specs.Clocks.{AreClocks, IsPart, IsUnder};

use crate::analysis::lent;
use crate::clock::Clock;
use mr_event::{Footprint, OutOfMemory, thread_at};

/// Follows step `i`, from which an edge leads to step `j`.
pub(crate) fn follow_edge(
    run: &[Footprint],
    clocks: &[Clock],
    numbers: &[u32],
    i: usize,
    clock: &mut Clock,
    j: usize,
) -> Result<(), OutOfMemory>
    requires order { i < j }
    requires within { j < length run.now }
    requires few { length run.now < 2 ^ 32 }
    requires clocks { AreClocks run.now j clocks.now numbers.now }
    requires edge { Edge run.now i j }
    requires part { IsPart run.now clock.old j }
    ensures part { OnOk result (IsPart run.now clock.new j) }
    ensures under { OnOk result (IsUnder run.now clock.new i) }
    ensures kept { OnOk result ((m : ℕ) → IsUnder run.now clock.old m → IsUnder run.now clock.new m) }
{
    clock.follow(lent(clocks, numbers, i), thread_at(run, i), i as u32)?;
    Ok(())
}
