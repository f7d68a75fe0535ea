//! The run that a schedule is drawn in.
ghost use Rattle.std.specs.Prelude.{◌≡◌, ℕ, ◌+◌, ◌^◌, ◌<◌, ◌≤◌, [], false, IfOk, OnOk, Some, List};
ghost use Rattle.mr_run.specs.StepPlanMachine.{State};
ghost use Rattle.mr_run.specs.StepPlanQueries.{tables_of};
ghost use Rattle.mr_start.specs.SyncTables.{IsEnabled};
ghost use Rattle.mr_run.specs.StepPlanRuns.{feet};
ghost use Rattle.mr_run.specs.Runs.{IsRun};
ghost use Rattle.mr_start.specs.Runs.{steps_of};
ghost use Rattle.mr_start.specs.Steps.{Own, thread_step};
ghost use Rattle.mr_typing.specs.Walk.{WellFormed};
ghost use Rattle.mr_auto.specs.Answers.{HasState, NextAnswer};
ghost use Rattle.mr_auto.specs.Drawing.{drawn_schedule, entry_from, next_at};
ghost use Rattle.mr_auto.specs.Drawn.{BeginsDrawing, DrawnAfter, drawn_from_here};

use crate::candidates::enabled_threads;
use crate::picking::{picks_for, start_picks};
use crate::running::make_step;
use mr_base::Verdict;
use mr_run::{Machine, Record, StepFault};
use mr_sched::{Chooser, Entry, Items, Schedule};
use mr_start::start_asks;
use mr_typing::Checked;
use std::alloc::{AllocError, Global};

/// A schedule that was drawn, and the machine behind its last entry.
#[derive(Drop)]
pub struct Drawn<'p> {
    pub schedule: Schedule,
    pub machine: Machine<'p>,
}

// The entry of a thread, where one is found: none where the step would create a thread or a lock too many, or where no address is left.
fn entry_of(
    alloc: Global,
    machine: &Machine<'_>,
    chooser: &mut Chooser,
    thread: u32,
) -> Result<Option<Entry>, AllocError>
    requires working { machine.now.failed ≡ false }
    requires enabled { (s : State Own) × (machine.now.config.state ≡ Some s) × IsEnabled thread (tables_of s.shared) }
    ensures { IfOk result (λ entry. (s : State Own) → machine.now.config.state ≡ Some s
        → NextAnswer (entry_from machine.now.look s chooser.old thread) entry chooser.new) }
{
    let mut asks = Vec::new(alloc);
    if machine.asks(thread, &mut asks)?.is_some() {
        return Ok(None);
    }
    match picks_for(alloc, machine, chooser, asks.as_slice())? {
        Some(picks) => Ok(Some(Entry { thread, picks })),
        None => Ok(None),
    }
}

// The next entry of a machine, where there is one.
fn next_entry(
    alloc: Global,
    machine: &Machine<'_>,
    chooser: &mut Chooser,
) -> Result<Option<Entry>, AllocError>
    requires working { machine.now.failed ≡ false }
    requires state { HasState machine.now.config }
    ensures { IfOk result (λ entry. NextAnswer
        (next_at machine.now.look machine.now.config chooser.old) entry chooser.new) }
{
    if !matches!(machine.verdict(), Verdict::Running) {
        return Ok(None);
    }
    let threads = enabled_threads(alloc, machine)?;
    if threads.is_empty() {
        return Ok(None);
    }
    let thread = chooser.thread(threads.as_slice());
    entry_of(alloc, machine, chooser, thread)
}

// Draws entries until there is none or there are so many, and makes their steps.
fn draw_entries<R: Record>(
    alloc: Global,
    machine: &mut Machine<'_>,
    chooser: &mut Chooser,
    most: u32,
    entries: &mut Items<Entry>,
    kept: &mut R,
) -> Result<(), AllocError>
    requires begins { BeginsDrawing machine.old chooser.old }
    requires completed { machine.old.config.completed + most < 2 ^ 32 }
    requires none { R.keeps kept.old [] }
    ensures drawn { OnOk result (DrawnAfter most machine.old chooser.old machine.new entries.old entries.new) }
    ensures kept { OnOk result (R.keeps kept.new
        (feet (thread_step machine.old.look) machine.old.config (drawn_from_here most machine.old chooser.old))) }
{
    for i in 0..most {
        match next_entry(alloc, machine, chooser)? {
            Some(entry) => {
                make_step(machine, &entry, kept)?;
                entries.push(entry)?;
            }
            None => return Ok(()),
        }
    }
    Ok(())
}

/// The schedule that is drawn from a number for a program, with at most so many entries, and the machine that ran under
/// it; and in `kept` what is kept of its steps. Want of memory is its only error.
pub fn draw<'p, R: Record>(
    alloc: Global,
    p: &'p Checked,
    number: u64,
    most: u32,
    kept: &mut R,
) -> Result<Drawn<'p>, AllocError>
    requires few { most ≤ 2 ^ 20 }
    requires none { R.keeps kept.old [] }
    ensures schedule { IfOk result (λ drawn. drawn.schedule ≡ drawn_schedule p.now number most) }
    ensures run { IfOk result (λ drawn. IsRun p.now drawn.schedule drawn.machine) }
    ensures kept { IfOk result (λ drawn. R.keeps kept.new (steps_of p.now drawn.schedule)) }
{
    // A checked program is well-formed, so that there is an address for all that its start asks for.
    p.program();
    let asks = start_asks(alloc, p)?;
    let mut chooser = Chooser::new(number);
    let Some(start) = start_picks(alloc, &mut chooser, asks.as_slice())? else {
        unreachable!()
    };
    let mut machine = match Machine::start(alloc, p, start.as_slice()) {
        Ok(machine) => machine,
        Err(StepFault::BadEntry { .. }) => unreachable!(),
        Err(StepFault::Memory | StepFault::Failed) => return Err(AllocError),
    };
    let mut entries = Items::new(alloc);
    draw_entries(alloc, &mut machine, &mut chooser, most, &mut entries, kept)?;
    Ok(Drawn {
        schedule: Schedule { start, entries },
        machine,
    })
}
