//! An order becomes a schedule.
ghost use Rattle.std.specs.Prelude.{◌≡◌, ◌+◌, ◌^◌, ◌<◌, ◌≤◌, length, IfOk};
ghost use Rattle.mr_start.specs.Runs.{Legal};
ghost use Rattle.mr_auto.specs.Drawn.{BeginsDrawing};
ghost use Rattle.mr_fill.specs.Filled.{AreOf, FilledAfter};
ghost use Rattle.mr_fill.specs.Filling.{filled};

use crate::Turn;
use crate::due::Due;
use crate::turning::turn_due;
use mr_auto::{make_step, start_picks};
use mr_run::Nothing;
use mr_sched::{Chooser, Entry, Items, Schedule};
use mr_start::start_asks;
use mr_step::{Machine, StepFault};
use mr_typing::Checked;
use std::alloc::{AllocError, Global};

/// Where an order can't go on: the line of its turn, and the rule that the turn would break.
#[derive(Clone, Copy, Debug)]
pub struct Halt {
    pub line: u32,
    pub code: u8,
}

/// A schedule that an order became, and where the order can't go on, if it can't.
#[derive(Drop)]
pub struct Filled {
    pub schedule: Schedule,
    pub halt: Option<Halt>,
}

// Makes the steps of some turns, whose entries join the others, until one can't be taken.
fn fill_entries(
    alloc: Global,
    machine: &mut Machine<'_>,
    chooser: &mut Chooser,
    turns: &[Turn],
    entries: &mut Items<Entry>,
) -> Result<Option<Halt>, AllocError>
    requires begins { BeginsDrawing machine.old chooser.old }
    requires completed { machine.old.config.completed + length turns.now < 2 ^ 32 }
    ensures { IfOk result (λ halt. FilledAfter turns.now machine.old chooser.old machine.new entries.old entries.new
        halt) }
{
    for turn in turns {
        match turn_due(alloc, machine, chooser, *turn)? {
            Due::Takes(entry) => {
                make_step(machine, &entry, &mut Nothing)?;
                entries.push(entry)?;
            }
            Due::Broken(code) => {
                return Ok(Some(Halt {
                    line: turn.line,
                    code,
                }));
            }
        }
    }
    Ok(None)
}

/// The schedule that an order becomes for a program. Want of memory is its only error.
pub fn fill(alloc: Global, p: &Checked, order: &[Turn]) -> Result<Filled, AllocError>
    requires few { length order.now ≤ 2 ^ 20 }
    ensures filled { IfOk result (λ f. f ≡ filled p.now order.now) }
    ensures legal { IfOk result (λ f. Legal p.now f.schedule) }
    ensures threads { IfOk result (λ f. AreOf order.now f.schedule.entries f.halt) }
{
    // A checked program is well-formed, so that there is an address for all that its start asks for.
    p.program();
    let asks = start_asks(alloc, p)?;
    let mut chooser = Chooser::new(0);
    let Some(start) = start_picks(alloc, &mut chooser, asks.as_slice())? else {
        unreachable!()
    };
    let mut machine = match Machine::start(alloc, p, start.as_slice()) {
        Ok(machine) => machine,
        Err(StepFault::BadEntry { .. }) => unreachable!(),
        Err(StepFault::Memory | StepFault::Failed) => return Err(AllocError),
    };
    let mut entries = Items::new(alloc);
    let halt = fill_entries(alloc, &mut machine, &mut chooser, order, &mut entries)?;
    Ok(Filled {
        schedule: Schedule { start, entries },
        halt,
    })
}
