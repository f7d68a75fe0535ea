//! The pick by which an entry breaks a rule.
ghost use Rattle.std.specs.Prelude.{◌≡◌, ◌+◌, ◌==◌, ◌^◌, ◌<◌, ◌≤◌, IfOk, OnOk, Some, false, length, true};
ghost use Rattle.std.specs.List.{find, range_with_len};
ghost use Rattle.mr_step.specs.PlanLegal.{Fault};
ghost use Rattle.mr_step.specs.StartRuns.{program_fault};
ghost use Rattle.mr_next.specs.Culprits.{breaks_with, culprit_of, is_of_pick, with_picks};

use mr_run::{Nothing, step};
use mr_sched::{Entry, Items};
use mr_step::{Machine, StepFault};
use std::alloc::{AllocError, Global};

// Whether a rule is one that a pick breaks.
fn is_of_pick(code: u8) -> bool
    ensures { result ≡ is_of_pick code }
{
    62 < code && code < 66
}

// An entry with its first picks alone.
fn with_picks(alloc: Global, entry: &Entry, count: usize) -> Result<Entry, AllocError>
    requires { count ≤ length entry.now.picks }
    ensures { IfOk result (λ e. e ≡ with_picks entry.now count) }
{
    let all = entry.picks.as_slice();
    let picks = Items::from_slice(alloc, &all[..count])?;
    Ok(Entry {
        thread: entry.thread,
        picks,
    })
}

// Whether an entry that is refused breaks this rule. The machine stays as it is.
fn is_broken(machine: &mut Machine<'_>, entry: &Entry, code: u8) -> Result<bool, AllocError>
    requires working { machine.old.failed ≡ false }
    requires completed { machine.old.config.completed < 2 ^ 32 }
    requires refused { (f : Fault) × (program_fault machine.old.look machine.old.config entry.now ≡ Some f) }
    ensures same { OnOk result (machine.new ≡ machine.old) }
    ensures broken { IfOk result (λ b. (f : Fault)
        → program_fault machine.old.look machine.old.config entry.now ≡ Some f → b ≡ (f.code == code)) }
{
    match step(machine, entry, &mut Nothing) {
        Ok(()) => unreachable!(),
        Err(StepFault::BadEntry { code: other, .. }) => Ok(other == code),
        Err(StepFault::Memory | StepFault::Failed) => Err(AllocError),
    }
}

// Whether an entry with so many picks breaks this rule, which breaks it with all of them. The machine stays as it is.
fn breaks_with(
    alloc: Global,
    machine: &mut Machine<'_>,
    entry: &Entry,
    code: u8,
    count: usize,
) -> Result<bool, AllocError>
    requires working { machine.old.failed ≡ false }
    requires completed { machine.old.config.completed < 2 ^ 32 }
    requires within { count ≤ length entry.now.picks }
    requires of_pick { is_of_pick code ≡ true }
    requires broken { (f : Fault) × (program_fault machine.old.look machine.old.config entry.now ≡ Some f)
        × (f.code ≡ code) }
    ensures same { OnOk result (machine.new ≡ machine.old) }
    ensures breaks { IfOk result (λ b. b ≡ breaks_with machine.old.look machine.old.config entry.now code count) }
{
    let tried = with_picks(alloc, entry, count)?;
    is_broken(machine, &tried, code)
}

// The position of the first pick with which an entry breaks this rule. The machine stays as it is.
fn first_culprit(
    alloc: Global,
    machine: &mut Machine<'_>,
    entry: &Entry,
    code: u8,
) -> Result<Option<usize>, AllocError>
    requires working { machine.old.failed ≡ false }
    requires completed { machine.old.config.completed < 2 ^ 32 }
    requires of_pick { is_of_pick code ≡ true }
    requires broken { (f : Fault) × (program_fault machine.old.look machine.old.config entry.now ≡ Some f)
        × (f.code ≡ code) }
    ensures same { OnOk result (machine.new ≡ machine.old) }
    ensures first { IfOk result (λ at. at
        ≡ find (λ k. breaks_with machine.old.look machine.old.config entry.now code (k + 1))
        (range_with_len 0 (length entry.now.picks))) }
{
    let count = entry.picks.len();
    for at in 0..count {
        if breaks_with(alloc, machine, entry, code, at + 1)? {
            return Ok(Some(at));
        }
    }
    Ok(None)
}

/// The position of the pick by which an entry breaks this rule, where the rule is one of a pick. The machine stays as it
/// is. An `Err` is for want of memory.
pub(crate) fn culprit(
    alloc: Global,
    machine: &mut Machine<'_>,
    entry: &Entry,
    code: u8,
) -> Result<Option<usize>, AllocError>
    requires working { machine.old.failed ≡ false }
    requires completed { machine.old.config.completed < 2 ^ 32 }
    requires broken { (f : Fault) × (program_fault machine.old.look machine.old.config entry.now ≡ Some f)
        × (f.code ≡ code) }
    ensures same { OnOk result (machine.new ≡ machine.old) }
    ensures culprit { IfOk result (λ at. at
        ≡ culprit_of machine.old.look machine.old.config entry.now code) }
{
    if is_of_pick(code) {
        first_culprit(alloc, machine, entry, code)
    } else {
        Ok(None)
    }
}
