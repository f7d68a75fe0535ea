//! Whole runs.

ghost use Rattle.std.specs.Prelude.{◌≡◌, IfOk};
ghost use Rattle.mr_rust_order.specs.Order.{AreRaces};
ghost use Rattle.mr_rust_order.specs.Tests.{rust_races};

use crate::analysis::Analysis;
use mr_event::{Footprint, OutOfMemory, Pair};
use std::alloc::Global;

/// The races of a run by Rust's order: each step that has a race with an earlier one, with the greatest such step, by
/// rising second step.
pub fn races(alloc: Global, run: &[Footprint]) -> Result<Vec<Pair>, OutOfMemory>
    ensures races { IfOk result (λ v. AreRaces run.now v.items) }
    ensures listed { IfOk result (λ v. v.items ≡ rust_races run.now) }
{
    let mut analysis = Analysis::new(alloc)?;
    let mut pairs = Vec::new(alloc);
    for j in 0..run.len() {
        if let Some(first) = analysis.add(run, j)? {
            pairs.push(Pair { first, second: j })?;
        }
    }
    Ok(pairs)
}
