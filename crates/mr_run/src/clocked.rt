//! The footprints of a run with their clocks and races.
ghost use Rattle.std.specs.Prelude.{◌≡◌, ◌+◌, ◌<◌, ◌^◌, ◌++◌, ◌∷◌, [], OnErr, OnOk, length, vec_capacity, vec_len};
ghost use Rattle.mr_event.specs.Predicted.{pair_with};
ghost use Rattle.mr_run.specs.Records.{AreAnalysed};

use crate::keeping::Record;
use mr_clocks::Analysis;
use mr_event::{Footprint, OutOfMemory, Pair};
use std::alloc::Global;
use std::marker::Model;

/// Keeps the footprints, and beside them the clocks of their steps and the races that they show so far. Contracts see
/// it as the footprints.
#[derive(Drop)]
pub struct Clocked {
    steps: Vec<Footprint>,
    order: Analysis,
    races: Vec<Pair>,
}

impl Model for Clocked {
    ghost use Rattle.std.specs.Prelude.{List};
    ghost use Rattle.mr_event.specs.Footprint.{Footprint as FootprintOf};
    ghost use Rattle.mr_run.specs.Records.{AreAnalysed};

    ghost Value = { List FootprintOf };

    ghost view = { λ c. c.steps.items };

    ghost invariant = { λ c. AreAnalysed c.steps.items c.order c.races.items };
}

impl Clocked {
    ghost use Rattle.std.specs.Prelude.{◌≡◌, []};
    ghost use Rattle.mr_clocks.specs.Tracked.{Tracks};
    ghost use Rattle.mr_event.specs.Predicted.{predicted};

    /// No footprint.
    pub fn new(alloc: Global) -> Clocked
        ensures { result ≡ [] }
    {
        Clocked {
            steps: Vec::new(alloc),
            order: Analysis::new(alloc),
            races: Vec::new(alloc),
        }
    }

    /// The footprints.
    pub fn steps(&self) -> &[Footprint]
        ensures { result.now ≡ self.now }
    {
        self.steps.as_slice()
    }

    /// The races that the steps show: each step that has a partner, with its greatest one, by rising second step.
    pub fn races(&self) -> &[Pair]
        ensures { result.now ≡ predicted self.now }
    {
        self.races.as_slice()
    }

    /// What happens before what.
    pub fn order(&self) -> &Analysis
        ensures { Tracks result.now self.now }
    {
        &self.order
    }
}

// The pair of a step and its partner, where it has one, joins others.
fn note(races: &mut Vec<Pair>, partner: Option<usize>, second: usize)
    requires { vec_len races.old < vec_capacity races.old }
    ensures { races.new.items ≡ races.old.items ++ pair_with partner second }
{
    if let Some(first) = partner {
        races.push_reserved(Pair { first, second });
    }
}

// A step joins others, and what is known of it what is known of them. It takes its memory before it changes anything
// that it doesn't take back.
fn join(
    steps: &mut Vec<Footprint>,
    order: &mut Analysis,
    races: &mut Vec<Pair>,
    foot: &Footprint,
) -> Result<(), OutOfMemory>
    requires analysed { AreAnalysed steps.old.items order.old races.old.items }
    requires few { length steps.old.items + 1 < 2 ^ 32 }
    ensures analysed { AreAnalysed steps.new.items order.new races.new.items }
    ensures ok { OnOk result (steps.new.items ≡ steps.old.items ++ foot.now ∷ []) }
    ensures err { OnErr result (steps.new.items ≡ steps.old.items) }
{
    races.reserve(1)?;
    foot.push_to(steps)?;
    match order.add(steps.as_slice()) {
        Ok(partner) => {
            let last = steps.len() - 1;
            note(races, partner, last);
            Ok(())
        }
        Err(fault) => {
            steps.pop();
            Err(fault)
        }
    }
}

impl Record for Clocked {
    ghost keeps = { λ kept steps. kept ≡ steps };

    fn keep(&mut self, foot: &Footprint) -> Result<(), OutOfMemory> {
        join(&mut self.steps, &mut self.order, &mut self.races, foot)
    }
}
