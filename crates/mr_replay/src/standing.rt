//! Where threads stand, and what they ask for.
ghost use Rattle.std.specs.Prelude.{◌≡◌, false, IfOk, Some};
ghost use Rattle.std.specs.Option.{option_map};
ghost use Rattle.mr_frame.specs.PlanMachine.{State, needs};
ghost use Rattle.mr_frame.specs.PlanQueries.{tables_of};
ghost use Rattle.mr_step.specs.SyncTables.{IsEnabled};
ghost use Rattle.mr_step.specs.ThreadSteps.{Own, thread_step};
ghost use Rattle.mr_replay.specs.Told.{asks_at, asks_by, stand_of, stand_with, started_by, started_in, status_of};

use mr_base::{Event, Status};
use mr_frame::At;
use mr_labels::Stand;
use mr_sched::{Ask, Entry, Items};
use mr_step::Machine;
use std::alloc::{AllocError, Global};

// A place of a thread.
fn stand_with(thread: u32, at: At) -> Stand
    ensures { result ≡ stand_with thread at }
{
    Stand {
        thread,
        function: at.function,
        block: at.block,
        at: at.at,
    }
}

// The same, where there is one.
fn stand_at(thread: u32, place: Option<At>) -> Option<Stand>
    ensures { result ≡ option_map (stand_with thread) place }
{
    match place {
        Some(at) => Some(stand_with(thread, at)),
        None => None,
    }
}

/// Where a thread stands.
pub(crate) fn stand_of(machine: &Machine<'_>, thread: u32) -> Option<Stand>
    ensures { result ≡ stand_of machine.now.config thread }
{
    stand_at(thread, machine.place(thread))
}

/// Whether a thread can go on, and what it waits for otherwise.
pub(crate) fn status_of(machine: &Machine<'_>, thread: u32) -> Option<Status>
    ensures { result ≡ status_of machine.now.config thread }
{
    machine.status(thread)
}

// Where the thread stands that a step with this event started.
fn started_by(machine: &Machine<'_>, event: Event) -> Option<Stand>
    ensures { result ≡ started_by machine.now.config event }
{
    match event {
        Event::Spawn(thread) => stand_of(machine, thread),
        Event::Quiet
        | Event::CreateLock(_)
        | Event::Acquire(_)
        | Event::Release(_)
        | Event::Join(_) => None,
    }
}

/// Where the thread stands that the last step started, if it started one.
pub(crate) fn started_in(machine: &Machine<'_>) -> Option<Stand>
    ensures { result ≡ started_in machine.now.config }
{
    match machine.last() {
        Some(foot) => started_by(machine, foot.event()),
        None => None,
    }
}

// What the next step of a thread asks for, which can go on.
fn enabled_asks(alloc: Global, machine: &Machine<'_>, thread: u32) -> Result<Items<Ask>, AllocError>
    requires working { machine.now.failed ≡ false }
    requires enabled { (s : State Own) × (machine.now.config.state ≡ Some s) × IsEnabled thread (tables_of s.shared) }
    ensures { IfOk result (λ asks. (s : State Own) → machine.now.config.state ≡ Some s
        → asks ≡ (needs (thread_step machine.now.look) s thread).asks) }
{
    let mut asks = Vec::new(alloc);
    machine.asks(thread, &mut asks)?;
    Ok(Items::from_vec(asks))
}

// What the next step of a thread asks for; nothing where it can't go on.
fn asks_at(alloc: Global, machine: &Machine<'_>, thread: u32) -> Result<Items<Ask>, AllocError>
    requires { machine.now.failed ≡ false }
    ensures { IfOk result (λ asks. asks ≡ asks_at machine.now.look machine.now.config thread) }
{
    if machine.enabled(thread) {
        enabled_asks(alloc, machine, thread)
    } else {
        Ok(Items::new(alloc))
    }
}

/// What the step of an entry asks for; nothing where it has no pick.
pub(crate) fn asks_by(
    alloc: Global,
    machine: &Machine<'_>,
    entry: &Entry,
) -> Result<Items<Ask>, AllocError>
    requires { machine.now.failed ≡ false }
    ensures { IfOk result (λ asks. asks ≡ asks_by machine.now.look machine.now.config entry.now) }
{
    if entry.picks.is_empty() {
        Ok(Items::new(alloc))
    } else {
        asks_at(alloc, machine, entry.thread)
    }
}
