//! The run of a program under a schedule, and where the threads of its steps stood.
ghost use Rattle.std.specs.Prelude.{◌≡◌, ◌+◌, ◌++◌, ◌∷◌, ◌^◌, ◌<◌, ◌≤◌, [], List, OnOk, false, length, map};
ghost use Rattle.mr_event.specs.Footprint.{Footprint as FootprintOf};
ghost use Rattle.mr_frame.specs.PlanRuns.{feet};
ghost use Rattle.mr_step.specs.StartRuns.{steps_of};
ghost use Rattle.mr_step.specs.ThreadSteps.{thread_step};
ghost use Rattle.mr_run.specs.Records.{HasRoom};
ghost use Rattle.mr_run.specs.Runs.{EntriesAnswer, EntryAnswer, HasPlace, RunAnswer, foot_by};
ghost use Rattle.mr_replay.specs.Stands.{stand_before, stands_of};
ghost use Rattle.mr_replay.specs.Told.{stand_of, told_first};

use crate::standing::stand_of;
use crate::telling::at_place;
use mr_labels::Stand;
use mr_run::{Record, RunFault, step};
use mr_sched::{Entry, Schedule};
use mr_step::{Machine, StepFault};
use mr_typing::Checked;
use std::alloc::Global;

// The step of an entry, before which it is kept where its thread stands.
fn stand_step<R: Record>(
    machine: &mut Machine<'_>,
    entry: &Entry,
    kept: &mut R,
    stands: &mut Vec<Option<Stand>>,
) -> Result<(), StepFault>
    requires working { machine.old.failed ≡ false }
    requires completed { machine.old.config.completed < 2 ^ 32 }
    requires room { HasRoom (R.keeps kept.old) }
    ensures answer { EntryAnswer entry.now machine.old machine.new result }
    ensures kept { (feet : List FootprintOf) → R.keeps kept.old feet
        → OnOk result (R.keeps kept.new (feet ++ foot_by entry.now machine.old)) }
    ensures stood { OnOk result
        (stands.new.items ≡ stands.old.items ++ stand_of machine.old.config entry.now.thread ∷ []) }
{
    let stand = stand_of(machine, entry.thread);
    match stands.push(stand) {
        Ok(()) => step(machine, entry, kept),
        Err(_) => Err(StepFault::Memory),
    }
}

// Steps by each entry. The first has place 3.
fn stand_entries<R: Record>(
    machine: &mut Machine<'_>,
    entries: &[Entry],
    kept: &mut R,
    stands: &mut Vec<Option<Stand>>,
) -> Result<(), RunFault>
    requires working { machine.old.failed ≡ false }
    requires completed { machine.old.config.completed + length entries.now < 2 ^ 32 }
    requires few { length entries.now ≤ 2 ^ 22 }
    requires none { R.keeps kept.old [] }
    ensures answer { EntriesAnswer entries.now machine.old machine.new result }
    ensures kept { OnOk result
        (R.keeps kept.new (feet (thread_step machine.old.look) machine.old.config entries.now)) }
    ensures stood { OnOk result (stands.new.items ≡ stands.old.items ++ map stand_before
        (told_first machine.old.look machine.old.config entries.now (length entries.now))) }
{
    let mut place = 3;
    for entry in entries {
        match stand_step(machine, entry, kept, stands) {
            Ok(()) => place += 1,
            Err(fault) => return Err(at_place(place, fault)),
        }
    }
    Ok(())
}

/// The run of a program under a schedule: the machine behind its last entry, in `kept` what is kept of its footprints,
/// and behind what stood in `stands` where the thread of each step stood before it; or the first rule that the schedule
/// breaks.
pub fn stands<'p, R: Record>(
    alloc: Global,
    p: &'p Checked,
    w: &Schedule,
    kept: &mut R,
    stands: &mut Vec<Option<Stand>>,
) -> Result<Machine<'p>, RunFault>
    requires few { length w.now.entries ≤ 2 ^ 22 }
    requires none { R.keeps kept.old [] }
    ensures answer { RunAnswer p.now w.now result }
    ensures place { HasPlace w.now result }
    ensures kept { OnOk result (R.keeps kept.new (steps_of p.now w.now)) }
    ensures stood { OnOk result (stands.new.items ≡ stands.old.items ++ stands_of p.now w.now) }
{
    let mut machine = match Machine::start(alloc, p, w.start.as_slice()) {
        Ok(machine) => machine,
        Err(fault) => return Err(at_place(2, fault)),
    };
    match stand_entries(&mut machine, w.entries.as_slice(), kept, stands) {
        Ok(()) => Ok(machine),
        Err(fault) => Err(fault),
    }
}
