//! The run of a program under a schedule, and what one step of it tells.
ghost use Rattle.std.specs.Prelude.{◌≡◌, ◌+◌, ◌++◌, ◌^◌, ◌<◌, ◌≤◌, [], List, IfErr, IfOk, IsTrue, OnOk, false, flat_map, length};
ghost use Rattle.std.specs.Prelude.{option_copied};
ghost use Rattle.mr_event.specs.Footprint.{Footprint as FootprintOf};
ghost use Rattle.mr_frame.specs.PlanRuns.{feet};
ghost use Rattle.mr_step.specs.StartRuns.{steps_of};
ghost use Rattle.mr_step.specs.ThreadSteps.{thread_step};
ghost use Rattle.mr_run.specs.Records.{HasRoom};
ghost use Rattle.mr_run.specs.Runs.{EntriesAnswer, EntryAnswer, HasPlace, RunAnswer, foot_by, placed};
ghost use Rattle.mr_labels.specs.Table.{step_rows};
ghost use Rattle.mr_replay.specs.Told.{allocated_by, before_in, if_between, is_between, made_in, told_between};
ghost use Rattle.mr_replay.specs.Told.{told_first, told_step, told_steps};

use crate::standing::{asks_by, stand_of, started_in, status_of};
use mr_ast::Program;
use mr_base::AllocId;
use mr_event::Footprint;
use mr_labels::{Allocation, Stand, ToldStep, push_rows};
use mr_run::{Record, RunFault, step};
use mr_sched::{Ask, Entry, Items, Schedule};
use mr_step::{Machine, StepFault};
use mr_typing::Checked;
use std::alloc::{AllocError, Global};

/// The fault of a start or a step, at its place.
pub(crate) fn at_place(place: u32, fault: StepFault) -> RunFault
    ensures { result ≡ placed place fault }
{
    match fault {
        StepFault::BadEntry { code, earlier } => RunFault::Broken {
            place,
            code,
            earlier,
        },
        StepFault::Memory | StepFault::Failed => RunFault::Memory,
    }
}

/// Numbers of steps, counted from 0: from one up to another, which is left out.
#[derive(Clone, Copy)]
pub struct Between {
    pub from: usize,
    pub to: usize,
}

// Whether a number is one of these.
fn is_between(part: Between, number: usize) -> bool
    ensures { result ≡ is_between part number }
{
    part.from <= number && number < part.to
}

// What is told before the step of an entry.
#[derive(Drop)]
struct Before {
    stand: Option<Stand>,
    asks: Items<Ask>,
    picks: Items<u64>,
    prints: usize,
    completed: u64,
}

fn told_before(alloc: Global, machine: &Machine<'_>, entry: &Entry) -> Result<Before, AllocError>
    requires { machine.now.failed ≡ false }
    ensures { IfOk result (λ told. told ≡ before_in machine.now.look machine.now.config entry.now) }
{
    let asks = asks_by(alloc, machine, entry)?;
    let picks = Items::from_slice(alloc, entry.picks.as_slice())?;
    Ok(Before {
        stand: stand_of(machine, entry.thread),
        asks,
        picks,
        prints: machine.lines(),
        completed: machine.completed(),
    })
}

// The allocations of a footprint, where there is one.
fn allocated_by(foot: Option<&Footprint>) -> &[AllocId]
    ensures { result.now ≡ allocated_by (option_copied foot.entry) }
{
    match foot {
        Some(foot) => foot.allocated(),
        None => &[],
    }
}

// The allocations that the last step made, before which so many steps were completed.
fn made_in<'a>(machine: &'a Machine<'_>, completed: u64) -> &'a [AllocId]
    ensures { result.now ≡ made_in completed machine.now.config }
{
    if machine.completed() == completed {
        return &[];
    }
    allocated_by(machine.last())
}

// What a step tells, whose machine stands behind it.
fn behind(
    alloc: Global,
    machine: &Machine<'_>,
    number: usize,
    thread: u32,
    told: Before,
) -> Result<ToldStep, AllocError>
    ensures { IfOk result (λ step. step ≡ told_between number machine.now.config thread told) }
{
    let made = Items::from_slice(alloc, made_in(machine, told.completed))?;
    Ok(ToldStep {
        number,
        thread,
        before: told.stand,
        behind: stand_of(machine, thread),
        status: status_of(machine, thread),
        started: started_in(machine),
        asks: told.asks,
        picks: told.picks,
        made,
        prints_before: told.prints,
        prints_behind: machine.lines(),
    })
}

// A step joins the rest, if its number is one of these.
fn push_told(steps: &mut Vec<ToldStep>, part: Between, told: ToldStep) -> Result<(), StepFault>
    ensures told { OnOk result (steps.new.items ≡ steps.old.items ++ if_between part told) }
    ensures memory { IfErr result (λ fault. fault ≡ StepFault.Memory) }
{
    if is_between(part, told.number) {
        match steps.push(told) {
            Ok(()) => Ok(()),
            Err(_) => Err(StepFault::Memory),
        }
    } else {
        Ok(())
    }
}

// The allocations of a step join the rest, and the step itself does, if its number is one of these.
fn joined(
    alloc: Global,
    p: &Program,
    part: Between,
    rows: &mut Vec<Allocation>,
    steps: &mut Vec<ToldStep>,
    told: ToldStep,
) -> Result<(), StepFault>
    ensures rows { OnOk result (rows.new.items ≡ rows.old.items ++ step_rows p.now told) }
    ensures told { OnOk result (steps.new.items ≡ steps.old.items ++ if_between part told) }
    ensures memory { IfErr result (λ fault. fault ≡ StepFault.Memory) }
{
    match push_rows(alloc, rows, p, &told) {
        Ok(()) => push_told(steps, part, told),
        Err(_) => Err(StepFault::Memory),
    }
}

// The same of the last step, before which this was told.
fn tell_behind(
    alloc: Global,
    p: &Program,
    machine: &Machine<'_>,
    number: usize,
    thread: u32,
    part: Between,
    rows: &mut Vec<Allocation>,
    steps: &mut Vec<ToldStep>,
    told: Before,
) -> Result<(), StepFault>
    ensures rows { OnOk result (rows.new.items
        ≡ rows.old.items ++ step_rows p.now (told_between number machine.now.config thread told)) }
    ensures told { OnOk result (steps.new.items
        ≡ steps.old.items ++ if_between part (told_between number machine.now.config thread told)) }
    ensures memory { IfErr result (λ fault. fault ≡ StepFault.Memory) }
{
    match behind(alloc, machine, number, thread, told) {
        Ok(step) => joined(alloc, p, part, rows, steps, step),
        Err(_) => Err(StepFault::Memory),
    }
}

// The step of an entry, before which this was told: its footprint is kept where it completes, and what it tells joins
// the rest; or the rule that the entry breaks.
fn made_step<R: Record>(
    alloc: Global,
    p: &Program,
    machine: &mut Machine<'_>,
    entry: &Entry,
    number: usize,
    part: Between,
    kept: &mut R,
    rows: &mut Vec<Allocation>,
    steps: &mut Vec<ToldStep>,
    told: Before,
) -> Result<(), StepFault>
    requires working { machine.old.failed ≡ false }
    requires completed { machine.old.config.completed < 2 ^ 32 }
    requires room { HasRoom (R.keeps kept.old) }
    requires told { told ≡ before_in machine.old.look machine.old.config entry.now }
    ensures answer { EntryAnswer entry.now machine.old machine.new result }
    ensures kept { (feet : List FootprintOf) → R.keeps kept.old feet
        → OnOk result (R.keeps kept.new (feet ++ foot_by entry.now machine.old)) }
    ensures rows { OnOk result (rows.new.items
        ≡ rows.old.items ++ step_rows p.now (told_step machine.old.look machine.old.config number entry.now)) }
    ensures told { OnOk result (steps.new.items
        ≡ steps.old.items ++ if_between part (told_step machine.old.look machine.old.config number entry.now)) }
{
    match step(machine, entry, kept) {
        Ok(()) => tell_behind(
            alloc,
            p,
            machine,
            number,
            entry.thread,
            part,
            rows,
            steps,
            told,
        ),
        Err(fault) => Err(fault),
    }
}

// Whether nothing is kept of what a step tells: its number is none of these, and its entry has no pick, so that it makes
// no allocation.
fn is_untold(entry: &Entry, number: usize, part: Between) -> bool
    ensures picks { IsTrue result → entry.now.picks ≡ [] }
    ensures part { IsTrue result → is_between part number ≡ false }
{
    entry.picks.is_empty() && !is_between(part, number)
}

// The step of an entry, with what it tells.
fn tell_step<R: Record>(
    alloc: Global,
    p: &Program,
    machine: &mut Machine<'_>,
    entry: &Entry,
    number: usize,
    part: Between,
    kept: &mut R,
    rows: &mut Vec<Allocation>,
    steps: &mut Vec<ToldStep>,
) -> Result<(), StepFault>
    requires working { machine.old.failed ≡ false }
    requires completed { machine.old.config.completed < 2 ^ 32 }
    requires room { HasRoom (R.keeps kept.old) }
    ensures answer { EntryAnswer entry.now machine.old machine.new result }
    ensures kept { (feet : List FootprintOf) → R.keeps kept.old feet
        → OnOk result (R.keeps kept.new (feet ++ foot_by entry.now machine.old)) }
    ensures rows { OnOk result (rows.new.items
        ≡ rows.old.items ++ step_rows p.now (told_step machine.old.look machine.old.config number entry.now)) }
    ensures told { OnOk result (steps.new.items
        ≡ steps.old.items ++ if_between part (told_step machine.old.look machine.old.config number entry.now)) }
{
    if is_untold(entry, number, part) {
        return step(machine, entry, kept);
    }
    match told_before(alloc, machine, entry) {
        Ok(told) => made_step(
            alloc, p, machine, entry, number, part, kept, rows, steps, told,
        ),
        Err(_) => Err(StepFault::Memory),
    }
}

// Steps by each entry. The first has place 3.
fn tell_entries<R: Record>(
    alloc: Global,
    p: &Program,
    machine: &mut Machine<'_>,
    entries: &[Entry],
    part: Between,
    kept: &mut R,
    rows: &mut Vec<Allocation>,
    steps: &mut Vec<ToldStep>,
) -> Result<(), RunFault>
    requires working { machine.old.failed ≡ false }
    requires completed { machine.old.config.completed + length entries.now < 2 ^ 32 }
    requires few { length entries.now ≤ 2 ^ 22 }
    requires none { R.keeps kept.old [] }
    ensures answer { EntriesAnswer entries.now machine.old machine.new result }
    ensures kept { OnOk result
        (R.keeps kept.new (feet (thread_step machine.old.look) machine.old.config entries.now)) }
    ensures rows { OnOk result (rows.new.items ≡ rows.old.items ++ flat_map (step_rows p.now)
        (told_first machine.old.look machine.old.config entries.now (length entries.now))) }
    ensures told { OnOk result (steps.new.items ≡ steps.old.items ++ flat_map (if_between part)
        (told_first machine.old.look machine.old.config entries.now (length entries.now))) }
{
    let mut place = 3;
    let mut number = 0;
    for entry in entries {
        match tell_step(alloc, p, machine, entry, number, part, kept, rows, steps) {
            Ok(()) => {
                place += 1;
                number += 1;
            }
            Err(fault) => return Err(at_place(place, fault)),
        }
    }
    Ok(())
}

/// The run of a program under a schedule: the machine behind its last entry, in `kept` what is kept of its footprints,
/// behind what stood in `rows` the allocations of its steps, and behind what stood in `steps` what those steps tell whose
/// numbers are in the part; or the first rule that the schedule breaks.
pub fn tell<'p, R: Record>(
    alloc: Global,
    p: &'p Checked,
    w: &Schedule,
    part: Between,
    kept: &mut R,
    rows: &mut Vec<Allocation>,
    steps: &mut Vec<ToldStep>,
) -> Result<Machine<'p>, RunFault>
    requires few { length w.now.entries ≤ 2 ^ 22 }
    requires none { R.keeps kept.old [] }
    ensures answer { RunAnswer p.now w.now result }
    ensures place { HasPlace w.now result }
    ensures kept { OnOk result (R.keeps kept.new (steps_of p.now w.now)) }
    ensures rows { OnOk result (rows.new.items
        ≡ rows.old.items ++ flat_map (step_rows p.now) (told_steps p.now w.now)) }
    ensures told { OnOk result (steps.new.items
        ≡ steps.old.items ++ flat_map (if_between part) (told_steps p.now w.now)) }
{
    let mut machine = match Machine::start(alloc, p, w.start.as_slice()) {
        Ok(machine) => machine,
        Err(fault) => return Err(at_place(2, fault)),
    };
    let entries = w.entries.as_slice();
    match tell_entries(
        alloc,
        p.program(),
        &mut machine,
        entries,
        part,
        kept,
        rows,
        steps,
    ) {
        Ok(()) => Ok(machine),
        Err(fault) => Err(fault),
    }
}
