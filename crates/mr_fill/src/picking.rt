//! The picks for what the step of a turn asks for.
ghost use Rattle.std.specs.Prelude.{◌≡◌, IfOk, Some, slice_get};
ghost use Rattle.mr_step.specs.PlanMachine.{State};
ghost use Rattle.mr_start.specs.Steps.{Own};
ghost use Rattle.mr_auto.specs.Answers.{PickAnswer, PicksAnswer};
ghost use Rattle.mr_auto.specs.Drawing.{waiting_in};
ghost use Rattle.mr_fill.specs.Filling.{asks_waiter, behind_given, given, given_pick, is_surplus, is_waiter, missing_code};
ghost use Rattle.mr_fill.specs.Filling.{receiver_in};

use mr_auto::{address, waiting_threads};
use mr_sched::{Ask, Chooser, Items, ScheduleRule};
use mr_step::Machine;
use std::alloc::{AllocError, Global};

// The thread that is named, if it waits for a lock.
fn named_waiter(machine: &Machine<'_>, lock: u32, t: u32) -> Option<u64>
    ensures { (s : State Own) → machine.now.config.state ≡ Some s
        → result ≡ receiver_in s.shared.statuses lock (Some t) }
{
    if machine.waiting(lock, t) {
        Some(u64::from(t))
    } else {
        None
    }
}

// The first of some threads.
fn first_of(threads: &[u32]) -> Option<u64>
    ensures { result ≡ slice_get threads.now 0 }
{
    match threads.first() {
        Some(t) => Some(u64::from(*t)),
        None => None,
    }
}

// The first thread that waits for a lock.
fn first_waiter(alloc: Global, machine: &Machine<'_>, lock: u32) -> Result<Option<u64>, AllocError>
    requires { (s : State Own) × (machine.now.config.state ≡ Some s) }
    ensures { IfOk result (λ pick. (s : State Own) → machine.now.config.state ≡ Some s
        → pick ≡ slice_get (waiting_in lock s.shared.statuses) 0) }
{
    let waiting = waiting_threads(alloc, machine, lock)?;
    Ok(first_of(waiting.as_slice()))
}

// The thread that gets a lock, if there is one.
fn waiter(
    alloc: Global,
    machine: &Machine<'_>,
    lock: u32,
    receiver: Option<u32>,
) -> Result<Option<u64>, AllocError>
    requires { (s : State Own) × (machine.now.config.state ≡ Some s) }
    ensures { IfOk result (λ pick. (s : State Own) → machine.now.config.state ≡ Some s
        → pick ≡ receiver_in s.shared.statuses lock receiver) }
{
    match receiver {
        Some(t) => Ok(named_waiter(machine, lock, t)),
        None => first_waiter(alloc, machine, lock),
    }
}

// The pick for what is asked, where there is one.
fn pick_for(
    alloc: Global,
    machine: &Machine<'_>,
    chooser: &mut Chooser,
    receiver: Option<u32>,
    ask: Ask,
) -> Result<Option<u64>, AllocError>
    requires { (s : State Own) × (machine.now.config.state ≡ Some s) }
    ensures { IfOk result (λ pick. (s : State Own) → machine.now.config.state ≡ Some s
        → PickAnswer (given_pick s.shared.statuses receiver chooser.old ask) (behind_given chooser.old ask)
        pick chooser.new) }
{
    match ask {
        Ask::Address { size, align } => Ok(address(chooser, size, align)),
        Ask::Waiter { lock } => waiter(alloc, machine, lock, receiver),
    }
}

/// The picks for all that is asked, where there is one for each.
pub(crate) fn picks_for(
    alloc: Global,
    machine: &Machine<'_>,
    chooser: &mut Chooser,
    receiver: Option<u32>,
    asks: &[Ask],
) -> Result<Option<Items<u64>>, AllocError>
    requires { (s : State Own) × (machine.now.config.state ≡ Some s) }
    ensures { IfOk result (λ picks. (s : State Own) → machine.now.config.state ≡ Some s
        → PicksAnswer (given s.shared.statuses receiver chooser.old asks.now) picks chooser.new) }
{
    let mut picks = Items::new(alloc);
    for ask in asks {
        match pick_for(alloc, machine, chooser, receiver, *ask)? {
            Some(pick) => picks.push(pick)?,
            None => return Ok(None),
        }
    }
    Ok(Some(picks))
}

// Whether it is asked who gets a lock.
fn is_waiter(ask: Ask) -> bool
    ensures { result ≡ is_waiter ask }
{
    match ask {
        Ask::Address { .. } => false,
        Ask::Waiter { .. } => true,
    }
}

// The same of one of these.
fn asks_waiter(asks: &[Ask]) -> bool
    ensures { result ≡ asks_waiter asks.now }
{
    asks.iter().any(|ask| is_waiter(*ask))
}

/// Whether a thread is named that gets a lock, and it isn't asked who does.
pub(crate) fn is_surplus(receiver: Option<u32>, asks: &[Ask]) -> bool
    ensures { result ≡ is_surplus receiver asks.now }
{
    receiver.is_some() && !asks_waiter(asks)
}

/// The rule that there is no pick for.
pub(crate) fn missing_code(asks: &[Ask]) -> u8
    ensures { result ≡ missing_code asks.now }
{
    if asks_waiter(asks) {
        ScheduleRule::NotWaiting.code()
    } else {
        ScheduleRule::BadAddress.code()
    }
}
