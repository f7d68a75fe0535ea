//! What each thread of a machine would do next.
ghost use Rattle.std.specs.Prelude.{◌≡◌, [], false, IfOk, None, Some, map};
ghost use Rattle.std.specs.List.{range_with_len};
ghost use Rattle.mr_step.specs.PlanLegal.{creation_fault};
ghost use Rattle.mr_step.specs.PlanMachine.{State, needs};
ghost use Rattle.mr_step.specs.PlanQueries.{tables_of};
ghost use Rattle.mr_step.specs.SyncTables.{IsEnabled};
ghost use Rattle.mr_step.specs.ThreadSteps.{Own, thread_step};
ghost use Rattle.std.specs.Option.{option_map};
ghost use Rattle.mr_next.specs.Prospects.{holder_for, limit_in, prospect_in, prospects_in, want_of, wants_in};

use crate::{Prospect, Want};
use mr_auto::waiting_threads;
use mr_base::Status;
use mr_sched::{Ask, Items};
use mr_step::Machine;
use std::alloc::{AllocError, Global};

// What the next step of a thread asks for, and the limit that it would pass.
#[derive(Drop)]
pub(crate) struct Needed {
    wants: Items<Want>,
    limit: Option<u8>,
}

// What is asked for, with the threads among which one is picked.
fn want_of(alloc: Global, machine: &Machine<'_>, ask: Ask) -> Result<Want, AllocError>
    requires { (s : State Own) × (machine.now.config.state ≡ Some s) }
    ensures { IfOk result (λ want. (s : State Own) → machine.now.config.state ≡ Some s
        → want ≡ want_of s.shared.statuses ask) }
{
    match ask {
        Ask::Address { size, align } => Ok(Want::Address { size, align }),
        Ask::Waiter { lock } => waiter_of(alloc, machine, lock),
    }
}

// One of the threads that wait for a lock.
fn waiter_of(alloc: Global, machine: &Machine<'_>, lock: u32) -> Result<Want, AllocError>
    requires { (s : State Own) × (machine.now.config.state ≡ Some s) }
    ensures { IfOk result (λ want. (s : State Own) → machine.now.config.state ≡ Some s
        → want ≡ want_of s.shared.statuses (Ask.Waiter lock)) }
{
    let threads = waiting_threads(alloc, machine, lock)?;
    Ok(Want::Waiter {
        lock,
        threads: Items::from_vec(threads),
    })
}

// The same of all that is asked for.
fn wants_of(alloc: Global, machine: &Machine<'_>, asks: &[Ask]) -> Result<Items<Want>, AllocError>
    requires { (s : State Own) × (machine.now.config.state ≡ Some s) }
    ensures { IfOk result (λ wants. (s : State Own) → machine.now.config.state ≡ Some s
        → wants ≡ map (want_of s.shared.statuses) asks.now) }
{
    let mut wants = Items::new(alloc);
    for ask in asks {
        let want = want_of(alloc, machine, *ask)?;
        wants.push(want)?;
    }
    Ok(wants)
}

// What the next step of a thread needs, which can go on.
fn enabled_needed(alloc: Global, machine: &Machine<'_>, thread: u32) -> Result<Needed, AllocError>
    requires working { machine.now.failed ≡ false }
    requires enabled { (s : State Own) × (machine.now.config.state ≡ Some s) × IsEnabled thread (tables_of s.shared) }
    ensures { IfOk result (λ needed. (s : State Own) → machine.now.config.state ≡ Some s
        → (needed.wants ≡ map (want_of s.shared.statuses) (needs (thread_step machine.now.look) s thread).asks)
        × (needed.limit ≡ option_map (λ f. f.code)
        (creation_fault s.shared (needs (thread_step machine.now.look) s thread).creates))) }
{
    let mut asks = Vec::new(alloc);
    let limit = machine.asks(thread, &mut asks)?;
    let wants = wants_of(alloc, machine, asks.as_slice())?;
    Ok(Needed { wants, limit })
}

// What the next step of a thread needs; nothing where it can't go on.
fn needed_by(alloc: Global, machine: &Machine<'_>, thread: u32) -> Result<Needed, AllocError>
    requires working { machine.now.failed ≡ false }
    requires state { (s : State Own) × (machine.now.config.state ≡ Some s) }
    ensures { IfOk result (λ needed. (s : State Own) → machine.now.config.state ≡ Some s
        → (needed.wants ≡ wants_in machine.now.look s thread) × (needed.limit ≡ limit_in machine.now.look s thread)) }
{
    if machine.enabled(thread) {
        enabled_needed(alloc, machine, thread)
    } else {
        Ok(Needed {
            wants: Items::new(alloc),
            limit: None,
        })
    }
}

// The thread that holds the lock that is waited for.
fn holder_for(machine: &Machine<'_>, status: Option<Status>) -> Option<u32>
    ensures { (s : State Own) → machine.now.config.state ≡ Some s → result ≡ holder_for s status }
{
    match status {
        Some(Status::OnLock(lock)) => machine.holder(lock),
        Some(Status::Enabled) | Some(Status::OnJoin(_)) | Some(Status::Ended) | None => None,
    }
}

// What a thread would do next.
fn prospect_of(alloc: Global, machine: &Machine<'_>, thread: u32) -> Result<Prospect, AllocError>
    requires working { machine.now.failed ≡ false }
    requires state { (s : State Own) × (machine.now.config.state ≡ Some s) }
    ensures { IfOk result (λ prospect. (s : State Own) → machine.now.config.state ≡ Some s
        → prospect ≡ prospect_in machine.now.look s thread) }
{
    let Needed { wants, limit } = needed_by(alloc, machine, thread)?;
    let status = machine.status(thread);
    Ok(Prospect {
        status,
        holder: holder_for(machine, status),
        wants,
        limit,
    })
}

// What so many threads would do next, from thread 0 on.
fn first_prospects(
    alloc: Global,
    machine: &Machine<'_>,
    count: u32,
) -> Result<Vec<Prospect>, AllocError>
    requires working { machine.now.failed ≡ false }
    requires state { (s : State Own) × (machine.now.config.state ≡ Some s) }
    ensures { IfOk result (λ prospects. (s : State Own) → machine.now.config.state ≡ Some s
        → prospects.items ≡ map (prospect_in machine.now.look s) (range_with_len 0 count)) }
{
    let mut prospects = Vec::new(alloc);
    for thread in 0..count {
        let prospect = prospect_of(alloc, machine, thread)?;
        prospects.push(prospect)?;
    }
    Ok(prospects)
}

/// What each thread would do next, in order; none behind a step that itself stopped. An `Err` is for want of memory.
pub fn prospects(alloc: Global, machine: &Machine<'_>) -> Result<Vec<Prospect>, AllocError>
    requires { machine.now.failed ≡ false }
    ensures { IfOk result (λ prospects. prospects.items ≡ prospects_in machine.now.look machine.now.config.state) }
{
    let count = machine.threads();
    if count == 0 {
        return Ok(Vec::new(alloc));
    }
    first_prospects(alloc, machine, count)
}
