//! The second run of a program, which tells values.
ghost use Rattle.std.specs.Prelude.{◌≡◌, ◌+◌, ◌<◌, ◌≤◌, ◌^◌, IfOk, None, OnOk, false, length, map, option_copied};
ghost use Rattle.std.specs.List.{range_with_len};
ghost use Rattle.mr_step.specs.PlanRuns.{AreLegal};
ghost use Rattle.mr_replay.specs.Told.{is_between};
ghost use Rattle.mr_run.specs.Runs.{IsMade};
ghost use Rattle.mr_step.specs.Answers.{standing};
ghost use Rattle.mr_step.specs.StartRuns.{Legal, program_fault, program_step};
ghost use Rattle.mr_step.specs.StartStart.{start_fault};
ghost use Rattle.mr_step.specs.ThreadSteps.{thread_step};
ghost use Rattle.mr_values.specs.Values.{accesses_at, accesses_of, run_values, values_at, values_between};

use crate::reached::all_held;
use mr_auto::make_step;
use mr_base::Access;
use mr_event::Footprint;
use mr_labels::Allocations;
use mr_listing::StepValues;
use mr_replay::Between;
use mr_run::Nothing;
use mr_sched::{Entry, Schedule};
use mr_step::{Machine, StepFault};
use mr_typing::Checked;
use std::alloc::{AllocError, Global};

// Whether a number is one of a part.
fn is_between(part: Between, number: usize) -> bool
    ensures { result ≡ is_between part number }
{
    part.from <= number && number < part.to
}

// The accesses of a footprint, where there is one.
fn accesses_of(foot: Option<&Footprint>) -> &[Access]
    ensures { result.now ≡ accesses_of (option_copied foot.entry) }
{
    match foot {
        Some(foot) => foot.accesses(),
        None => &[],
    }
}

// The accesses of the step of a number that is one of a part.
fn accesses_at(part: Between, feet: &[Footprint], number: usize) -> &[Access]
    ensures { result.now ≡ accesses_at part feet.now number }
{
    if is_between(part, number) {
        accesses_of(feet.get(number))
    } else {
        &[]
    }
}

// The values of the step of an entry that breaks no rule, which has these accesses. The machine makes it.
fn step_values(
    alloc: Global,
    machine: &mut Machine<'_>,
    entry: &Entry,
    rows: &Allocations,
    accesses: &[Access],
) -> Result<StepValues, AllocError>
    requires working { machine.old.failed ≡ false }
    requires completed { machine.old.config.completed < 2 ^ 32 }
    requires legal { program_fault machine.old.look machine.old.config entry.now ≡ None }
    ensures made { OnOk result (IsMade entry.now machine.old machine.new) }
    ensures values { IfOk result (λ values. values ≡ values_between rows.now accesses.now machine.old.config
        (program_step machine.old.look machine.old.config entry.now)) }
{
    let before = all_held(alloc, machine, rows, accesses)?;
    make_step(machine, entry, &mut Nothing)?;
    let behind = all_held(alloc, machine, rows, accesses)?;
    Ok(StepValues { before, behind })
}

// The values of the steps of legal entries, of which those of a part have these footprints.
fn entries_values(
    alloc: Global,
    machine: &mut Machine<'_>,
    entries: &[Entry],
    rows: &Allocations,
    feet: &[Footprint],
    part: Between,
) -> Result<Vec<StepValues>, AllocError>
    requires working { machine.old.failed ≡ false }
    requires completed { machine.old.config.completed + length entries.now < 2 ^ 32 }
    requires legal { AreLegal (thread_step machine.old.look) machine.old.config entries.now }
    ensures { IfOk result (λ values. values.items
        ≡ map (values_at machine.old.look machine.old.config entries.now rows.now feet.now part)
        (range_with_len 0 (length entries.now))) }
{
    let mut values = Vec::new(alloc);
    let mut number = 0;
    for entry in entries {
        let accesses = accesses_at(part, feet, number);
        let held = step_values(alloc, machine, entry, rows, accesses)?;
        values.push(held)?;
        number += 1;
    }
    Ok(values)
}

// The machine before the first entry of a legal schedule.
fn begun<'p>(alloc: Global, p: &'p Checked, picks: &[u64]) -> Result<Machine<'p>, AllocError>
    requires { start_fault p.now picks.now ≡ None }
    ensures { IfOk result (λ m. m ≡ standing p.now picks.now) }
{
    match Machine::start(alloc, p, picks) {
        Ok(machine) => Ok(machine),
        Err(StepFault::BadEntry { .. }) => unreachable!(),
        Err(StepFault::Memory | StepFault::Failed) => Err(AllocError),
    }
}

/// The values of the steps of the run of a program under a legal schedule, which has these allocations and footprints:
/// those of each step at its number, and of one that is not of the part no value. An `Err` is for want of memory.
pub fn values(
    alloc: Global,
    p: &Checked,
    w: &Schedule,
    rows: &Allocations,
    feet: &[Footprint],
    part: Between,
) -> Result<Vec<StepValues>, AllocError>
    requires few { length w.now.entries ≤ 2 ^ 22 }
    requires legal { Legal p.now w.now }
    ensures { IfOk result (λ values. values.items ≡ run_values p.now w.now rows.now feet.now part) }
{
    let mut machine = begun(alloc, p, w.start.as_slice())?;
    entries_values(alloc, &mut machine, w.entries.as_slice(), rows, feet, part)
}
