//! One step of a machine that works.
ghost use Rattle.std.specs.Prelude.{◌≡◌, ◌++◌, ◌^◌, ◌<◌, false, List, None, OnOk};
ghost use Rattle.mr_run.specs.EventFootprint.{Footprint};
ghost use Rattle.mr_start.specs.Runs.{program_fault};
ghost use Rattle.mr_run.specs.Records.{HasRoom};
ghost use Rattle.mr_run.specs.Runs.{IsMade, foot_by};

use mr_run::{Machine, Record, StepFault, step};
use mr_sched::Entry;
use std::alloc::AllocError;

/// The step of an entry that breaks no rule.
pub fn make_step<R: Record>(
    machine: &mut Machine<'_>,
    entry: &Entry,
    kept: &mut R,
) -> Result<(), AllocError>
    requires working { machine.old.failed ≡ false }
    requires completed { machine.old.config.completed < 2 ^ 32 }
    requires legal { program_fault machine.old.look machine.old.config entry.now ≡ None }
    requires room { HasRoom (R.keeps kept.old) }
    ensures made { OnOk result (IsMade entry.now machine.old machine.new) }
    ensures kept { (steps : List Footprint) → R.keeps kept.old steps
        → OnOk result (R.keeps kept.new (steps ++ foot_by entry.now machine.old)) }
{
    match step(machine, entry, kept) {
        Ok(()) => Ok(()),
        Err(StepFault::BadEntry { .. }) => unreachable!(),
        Err(StepFault::Memory | StepFault::Failed) => Err(AllocError),
    }
}
