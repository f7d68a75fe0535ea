//! The run of a program under a schedule, and one step of it.
ghost use Rattle.std.specs.Prelude.{◌≡◌, ◌+◌, ◌++◌, ◌^◌, ◌<◌, ◌≤◌, [], List, OnErr, OnOk, false, length};
ghost use Rattle.mr_event.specs.Footprint.{Footprint as FootprintOf};
ghost use Rattle.mr_step.specs.PlanRuns.{feet};
ghost use Rattle.mr_step.specs.StartRuns.{steps_of};
ghost use Rattle.mr_step.specs.ThreadSteps.{thread_step};
ghost use Rattle.mr_run.specs.Records.{HasRoom};
ghost use Rattle.mr_run.specs.Runs.{EntriesAnswer, EntryAnswer, HasPlace, RunAnswer, foot_by};

use crate::fault::{RunFault, at_place};
use crate::keeping::Record;
use mr_sched::{Entry, Schedule};
use mr_step::{Machine, StepFault};
use mr_typing::Checked;
use std::alloc::Global;

/// The run of a program under a schedule: the machine behind its last entry, and in `kept` what is kept of its steps;
/// or the first rule that the schedule breaks.
pub fn run<'p, R: Record>(
    alloc: Global,
    p: &'p Checked,
    w: &Schedule,
    kept: &mut R,
) -> Result<Machine<'p>, RunFault>
    requires few { length w.now.entries ≤ 2 ^ 22 }
    requires none { R.keeps kept.old [] }
    ensures answer { RunAnswer p.now w.now result }
    ensures place { HasPlace w.now result }
    ensures kept { OnOk result (R.keeps kept.new (steps_of p.now w.now)) }
{
    let mut machine = match Machine::start(alloc, p, w.start.as_slice()) {
        Ok(machine) => machine,
        Err(fault) => return Err(at_place(2, fault)),
    };
    match run_entries(&mut machine, w.entries.as_slice(), kept) {
        Ok(()) => Ok(machine),
        Err(fault) => Err(fault),
    }
}

// Steps by each entry. The first has place 3.
fn run_entries<R: Record>(
    machine: &mut Machine<'_>,
    entries: &[Entry],
    kept: &mut R,
) -> Result<(), RunFault>
    requires working { machine.old.failed ≡ false }
    requires completed { machine.old.config.completed + length entries.now < 2 ^ 32 }
    requires few { length entries.now ≤ 2 ^ 22 }
    requires none { R.keeps kept.old [] }
    ensures answer { EntriesAnswer entries.now machine.old machine.new result }
    ensures kept { OnOk result
        (R.keeps kept.new (feet (thread_step machine.old.look) machine.old.config entries.now)) }
{
    let mut place = 3;
    for entry in entries {
        match step(machine, entry, kept) {
            Ok(()) => place += 1,
            Err(fault) => return Err(at_place(place, fault)),
        }
    }
    Ok(())
}

/// The step of an entry, whose footprint is kept where it completes; or the rule that the entry breaks, and then
/// nothing changes.
pub fn step<R: Record>(
    machine: &mut Machine<'_>,
    entry: &Entry,
    kept: &mut R,
) -> Result<(), StepFault>
    requires working { machine.old.failed ≡ false }
    requires completed { machine.old.config.completed < 2 ^ 32 }
    requires room { HasRoom (R.keeps kept.old) }
    ensures answer { EntryAnswer entry.now machine.old machine.new result }
    ensures kept { (steps : List FootprintOf) → R.keeps kept.old steps
        → OnOk result (R.keeps kept.new (steps ++ foot_by entry.now machine.old)) }
    ensures err { (steps : List FootprintOf) → R.keeps kept.old steps → OnErr result (R.keeps kept.new steps) }
{
    let before = machine.completed();
    match machine.go(entry) {
        Ok(_) => {}
        Err(fault) => return Err(fault),
    }
    if machine.completed() == before {
        return Ok(());
    }
    match machine.last() {
        Some(foot) => match kept.keep(foot) {
            Ok(()) => Ok(()),
            Err(_) => Err(StepFault::Memory),
        },
        None => unreachable!(),
    }
}
