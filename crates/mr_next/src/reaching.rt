//! How far a schedule goes.
ghost use Rattle.std.specs.Prelude.{◌≡◌, ◌+◌, ◌^◌, ◌<◌, ◌≤◌, IfErr, IfOk, false, length};
ghost use Rattle.mr_next.specs.Reached.{GoesTo, IsOfStart, IsReached};

use crate::Broken;
use crate::culprits::culprit;
use mr_run::{Nothing, RunFault, step};
use mr_sched::{Entry, Schedule};
use mr_step::{Machine, StepFault};
use mr_typing::Checked;
use std::alloc::{AllocError, Global};

/// Where a schedule leads: to its end, or up to the first entry that breaks a rule.
#[derive(Drop)]
pub struct Reached<'p> {
    pub machine: Machine<'p>,
    pub broken: Option<Broken>,
}

// Steps by each entry, until one breaks a rule. The first has place 3.
fn reach_entries(
    alloc: Global,
    machine: &mut Machine<'_>,
    entries: &[Entry],
) -> Result<Option<Broken>, AllocError>
    requires working { machine.old.failed ≡ false }
    requires completed { machine.old.config.completed + length entries.now < 2 ^ 32 }
    requires few { length entries.now ≤ 2 ^ 22 }
    ensures { IfOk result (λ broken. IsReached entries.now machine.old machine.new broken) }
{
    let mut place = 3;
    for entry in entries {
        match step(machine, entry, &mut Nothing) {
            Ok(()) => place += 1,
            Err(StepFault::BadEntry { code, earlier }) => {
                let at = culprit(alloc, machine, entry, code)?;
                return Ok(Some(Broken {
                    place,
                    code,
                    earlier,
                    culprit: at,
                }));
            }
            Err(StepFault::Memory | StepFault::Failed) => return Err(AllocError),
        }
    }
    Ok(None)
}

/// The machine behind the last entry of a schedule, or in front of the first that breaks a rule. The errors are a rule
/// that the start line breaks, and want of memory.
pub fn reach<'p>(alloc: Global, p: &'p Checked, w: &Schedule) -> Result<Reached<'p>, RunFault>
    requires few { length w.now.entries ≤ 2 ^ 22 }
    ensures reached { IfOk result (λ r. GoesTo p.now w.now r) }
    ensures start { IfErr result (λ fault. IsOfStart p.now w.now fault) }
{
    let mut machine = match Machine::start(alloc, p, w.start.as_slice()) {
        Ok(machine) => machine,
        Err(StepFault::BadEntry { code, earlier }) => {
            return Err(RunFault::Broken {
                place: 2,
                code,
                earlier,
            });
        }
        Err(StepFault::Memory | StepFault::Failed) => return Err(RunFault::Memory),
    };
    match reach_entries(alloc, &mut machine, w.entries.as_slice()) {
        Ok(broken) => Ok(Reached { machine, broken }),
        Err(_) => Err(RunFault::Memory),
    }
}
