//! The picks for what is asked.
ghost use Rattle.std.specs.Prelude.{◌≡◌, [], ◌∷◌, IfOk, Some};
ghost use Rattle.mr_run.specs.StepPlanMachine.{State};
ghost use Rattle.mr_sched.specs.Chooser.{behind_address, behind_draw};
ghost use Rattle.mr_start.specs.Steps.{Own};
ghost use Rattle.mr_auto.specs.Answers.{AreAddresses, PickAnswer, PicksAnswer};
ghost use Rattle.mr_auto.specs.Drawing.{behind_pick, found, pick_of, picked};
ghost use Rattle.mr_base.specs.declared.thread.Status.TheVariants.{Enabled};
ghost use Rattle.mr_sched.specs.declared.schedule.Ask.TheVariants.{Waiter};

use crate::candidates::waiting_threads;
use mr_run::Machine;
use mr_sched::{Ask, Chooser, Items};
use std::alloc::{AllocError, Global};

/// An address, where one is found.
pub fn address(chooser: &mut Chooser, size: u64, align: u64) -> Option<u64>
    ensures { PickAnswer (found chooser.old size align) (behind_address chooser.old size align) result chooser.new }
{
    if align == 0 {
        return None;
    }
    chooser.address(size, align)
}

// A thread that waits for a lock, where there is one.
fn waiter(
    alloc: Global,
    machine: &Machine<'_>,
    chooser: &mut Chooser,
    lock: u32,
) -> Result<Option<u64>, AllocError>
    requires { (s : State Own) × (machine.now.config.state ≡ Some s) }
    ensures { IfOk result (λ pick. (s : State Own) → machine.now.config.state ≡ Some s
        → PickAnswer (pick_of s.shared.statuses chooser.old (Waiter lock)) (behind_draw chooser.old) pick chooser.new) }
{
    let waiting = waiting_threads(alloc, machine, lock)?;
    if waiting.is_empty() {
        return Ok(None);
    }
    Ok(Some(u64::from(chooser.waiter(waiting.as_slice()))))
}

// The pick for what is asked, where there is one.
fn pick_for(
    alloc: Global,
    machine: &Machine<'_>,
    chooser: &mut Chooser,
    ask: Ask,
) -> Result<Option<u64>, AllocError>
    requires { (s : State Own) × (machine.now.config.state ≡ Some s) }
    ensures { IfOk result (λ pick. (s : State Own) → machine.now.config.state ≡ Some s
        → PickAnswer (pick_of s.shared.statuses chooser.old ask) (behind_pick chooser.old ask) pick chooser.new) }
{
    match ask {
        Ask::Address { size, align } => Ok(address(chooser, size, align)),
        Ask::Waiter { lock } => waiter(alloc, machine, chooser, lock),
    }
}

/// The picks for all that is asked, where there is one for each.
pub fn picks_for(
    alloc: Global,
    machine: &Machine<'_>,
    chooser: &mut Chooser,
    asks: &[Ask],
) -> Result<Option<Items<u64>>, AllocError>
    requires { (s : State Own) × (machine.now.config.state ≡ Some s) }
    ensures { IfOk result (λ picks. (s : State Own) → machine.now.config.state ≡ Some s
        → PicksAnswer (picked s.shared.statuses chooser.old asks.now) picks chooser.new) }
{
    let mut picks = Items::new(alloc);
    for ask in asks {
        match pick_for(alloc, machine, chooser, *ask)? {
            Some(pick) => picks.push(pick)?,
            None => return Ok(None),
        }
    }
    Ok(Some(picks))
}

/// The picks for the start line, which asks for addresses alone.
pub fn start_picks(
    alloc: Global,
    chooser: &mut Chooser,
    asks: &[Ask],
) -> Result<Option<Items<u64>>, AllocError>
    requires { AreAddresses asks.now }
    ensures { IfOk result (λ picks. PicksAnswer (picked (Enabled ∷ []) chooser.old asks.now) picks chooser.new) }
{
    let mut picks = Items::new(alloc);
    for ask in asks {
        let Ask::Address { size, align } = *ask else {
            unreachable!()
        };
        match address(chooser, size, align) {
            Some(pick) => picks.push(pick)?,
            None => return Ok(None),
        }
    }
    Ok(Some(picks))
}
