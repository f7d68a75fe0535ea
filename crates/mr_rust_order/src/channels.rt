//! Clocks that steps send to threads, to locks and to the joiners of threads, and that later steps receive.

ghost use Rattle.std.specs.Prelude.{◌≡◌, ℕ, ◌+◌, ◌<◌, ◌^◌, ◌==◌, IfOk, OnOk, length};
ghost use Rattle.std.specs.List.{list_any};
ghost use Rattle.mr_event.specs.Footprints.{spawns, wakes};
ghost use Rattle.mr_rust_order.specs.Clocks.{IsJoin};
ghost use Rattle.mr_rust_order.specs.Channels.{AreOthersKept, AreSent, clock_at, to_joiners, to_lock, told_by};

use crate::clock::Clock;
use mr_event::{Event, Footprint, OutOfMemory};
use std::alloc::Global;
use std::mem::replace;

// The clock of a channel that has one.
fn lent(clocks: &[Clock], x: usize) -> &Clock
    requires { x < length clocks.now }
    ensures { result.now ≡ clock_at clocks.now x }
{
    &clocks[x]
}

/// Raises a clock to that of a channel.
pub(crate) fn receive(clocks: &[Clock], x: u32, clock: &mut Clock) -> Result<(), OutOfMemory>
    ensures { OnOk result (IsJoin clock.old (clock_at clocks.now x) clock.new) }
{
    let x = x as usize;
    if x >= clocks.len() {
        return Ok(());
    }
    clock.join(lent(clocks, x))
}

/// Raises a clock to that of the lock that a step acquires, or of the thread that it joins.
pub(crate) fn receive_event(
    event: Event,
    locks: &[Clock],
    ended: &[Clock],
    clock: &mut Clock,
) -> Result<(), OutOfMemory>
    ensures { OnOk result (IsJoin clock.old (told_by event locks.now ended.now) clock.new) }
{
    match event {
        Event::Acquire(lock) => receive(locks, lock, clock),
        Event::Join(thread) => receive(ended, thread, clock),
        _ => Ok(()),
    }
}

// Appends empty clocks until there is one at `last`.
fn extend_past(alloc: Global, clocks: &mut Vec<Clock>, last: usize) -> Result<(), OutOfMemory>
    requires { last + 1 < 2 ^ 64 }
    ensures long { OnOk result (last < length clocks.new.items) }
    ensures same { OnOk result ((y : ℕ) → clock_at clocks.new.items y ≡ clock_at clocks.old.items y) }
{
    for k in clocks.len()..last + 1 {
        clocks.push(Clock::new(alloc))?;
    }
    Ok(())
}

/// Raises the clock of a channel to another one.
pub(crate) fn send(
    alloc: Global,
    clocks: &mut Vec<Clock>,
    x: u32,
    clock: &Clock,
) -> Result<(), OutOfMemory>
    ensures { OnOk result (AreSent clocks.old.items clock.now (λ y. x == y) clocks.new.items) }
{
    extend_past(alloc, clocks, x as usize)?;
    let channel = &mut clocks[x as usize];
    channel.join(clock)
}

// Raises the clocks of the threads that a step woke.
fn send_woken(
    alloc: Global,
    threads: &mut Vec<Clock>,
    woken: &[u32],
    clock: &Clock,
) -> Result<(), OutOfMemory>
    ensures { OnOk result
        (AreSent threads.old.items clock.now (λ y. list_any (λ t. t == y) woken.now) threads.new.items) }
{
    for i in 0..woken.len() {
        send(alloc, threads, woken[i], clock)?;
    }
    Ok(())
}

// Raises the clock of the thread that a step spawned.
fn send_spawned(
    alloc: Global,
    threads: &mut Vec<Clock>,
    event: Event,
    clock: &Clock,
) -> Result<(), OutOfMemory>
    ensures { OnOk result (AreSent threads.old.items clock.now (spawns event) threads.new.items) }
{
    match event {
        Event::Spawn(thread) => send(alloc, threads, thread, clock),
        _ => Ok(()),
    }
}

/// Raises the clocks of the threads that a step woke or spawned.
pub(crate) fn send_threads(
    alloc: Global,
    threads: &mut Vec<Clock>,
    step: &Footprint,
    clock: &Clock,
) -> Result<(), OutOfMemory>
    ensures { OnOk result (AreSent threads.old.items clock.now (wakes step.now) threads.new.items) }
{
    send_woken(alloc, threads, step.woken(), clock)?;
    send_spawned(alloc, threads, step.event(), clock)
}

/// Takes the clock of a channel out, and leaves an empty one.
pub(crate) fn take_out(alloc: Global, clocks: &mut Vec<Clock>, x: u32) -> Result<Clock, OutOfMemory>
    ensures clock { IfOk result (λ c. c ≡ clock_at clocks.old.items x) }
    ensures others { OnOk result (AreOthersKept clocks.old.items x clocks.new.items) }
{
    extend_past(alloc, clocks, x as usize)?;
    let channel = &mut clocks[x as usize];
    Ok(replace(channel, Clock::new(alloc)))
}

/// Puts the clock of a channel back.
pub(crate) fn put_back(
    alloc: Global,
    clocks: &mut Vec<Clock>,
    x: u32,
    clock: Clock,
) -> Result<(), OutOfMemory>
    ensures clock { OnOk result (clock_at clocks.new.items x ≡ clock) }
    ensures others { OnOk result (AreOthersKept clocks.old.items x clocks.new.items) }
{
    extend_past(alloc, clocks, x as usize)?;
    clocks[x as usize] = clock;
    Ok(())
}

/// Raises the clock of the lock that a step releases.
pub(crate) fn send_lock(
    alloc: Global,
    locks: &mut Vec<Clock>,
    step: &Footprint,
    clock: &Clock,
) -> Result<(), OutOfMemory>
    ensures { OnOk result (AreSent locks.old.items clock.now (to_lock step.now) locks.new.items) }
{
    match step.event() {
        Event::Release(lock) => send(alloc, locks, lock, clock),
        _ => Ok(()),
    }
}

// Whether a step ended its thread, so that those that join it go on.
fn is_over(step: &Footprint) -> bool
    ensures { result ≡ step.now.ended }
{
    step.ended()
}

/// Raises the clock that the joiners of a step's thread receive, where the step ended it.
pub(crate) fn send_ended(
    alloc: Global,
    ended: &mut Vec<Clock>,
    step: &Footprint,
    clock: &Clock,
) -> Result<(), OutOfMemory>
    ensures { OnOk result (AreSent ended.old.items clock.now (to_joiners step.now) ended.new.items) }
{
    if !is_over(step) {
        return Ok(());
    }
    send(alloc, ended, step.thread(), clock)
}
