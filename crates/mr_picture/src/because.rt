//! The reason of an edge between two steps.
ghost use Rattle.std.specs.Prelude.{◌≡◌, ◌<◌, ◌||◌, ◌==◌, ◌++◌, OnOk, length};
ghost use Rattle.mr_event.specs.Footprints.{both_create, both_spawn, joins_of, lock_of, same_number, spawns};
ghost use Rattle.mr_picture.specs.Way.{because_of, bound_by};
ghost use Rattle.mr_picture.specs.WayTexts.{because_word};

use crate::way::syncs;
use mr_base::{Event, some_conflict};
use mr_event::{Footprint, thread_at};

/// Why a step happens before a later one that it has an edge to.
#[derive(Clone, Copy, Debug, PartialEq, Eq)]
pub enum Because {
    /// They are of one thread.
    Thread,
    /// The one woke or started the other's thread.
    Woken,
    /// Both act on one lock.
    Lock,
    /// Both create a lock, which their order gives its number.
    Locks,
    /// Both start a thread, likewise.
    Starts,
    /// The one joins a thread that the other starts or ends.
    Join,
    /// They load and store the same bytes.
    Access,
    /// The one makes or checks an allocation that the other uses or frees.
    Allocation,
}

// The lock that an event is of.
fn lock_of(event: Event) -> Option<u32>
    ensures { result ≡ lock_of event }
{
    match event {
        Event::CreateLock(lock) | Event::Acquire(lock) | Event::Release(lock) => Some(lock),
        Event::Quiet | Event::Spawn(_) | Event::Join(_) => None,
    }
}

// Whether both numbers are there, and equal.
fn same_number(x: Option<u32>, y: Option<u32>) -> bool
    ensures { result ≡ same_number x y }
{
    match (x, y) {
        (Some(x), Some(y)) => x == y,
        _ => false,
    }
}

// Whether both events create a lock.
fn both_create(d: Event, e: Event) -> bool
    ensures { result ≡ both_create d e }
{
    match (d, e) {
        (Event::CreateLock(_), Event::CreateLock(_)) => true,
        _ => false,
    }
}

// Whether both start a thread.
fn both_spawn(d: Event, e: Event) -> bool
    ensures { result ≡ both_spawn d e }
{
    match (d, e) {
        (Event::Spawn(_), Event::Spawn(_)) => true,
        _ => false,
    }
}

// Whether the event starts the thread.
fn spawns(event: Event, thread: u32) -> bool
    ensures { result ≡ spawns event thread }
{
    match event {
        Event::Spawn(spawned) => spawned == thread,
        _ => false,
    }
}

// Whether an event joins a thread that a step starts or ends.
fn joins_of(f: &Footprint, event: Event) -> bool
    ensures { result ≡ joins_of f.now event }
{
    match event {
        Event::Join(joined) => spawns(f.event(), joined) || f.ended() && f.thread() == joined,
        _ => false,
    }
}

// The reason between steps of two threads that aren't synchronised.
fn bound_by(f: &Footprint, g: &Footprint) -> Because
    ensures { result ≡ bound_by f.now g.now }
{
    if same_number(lock_of(f.event()), lock_of(g.event())) {
        Because::Lock
    } else if both_create(f.event(), g.event()) {
        Because::Locks
    } else if both_spawn(f.event(), g.event()) {
        Because::Starts
    } else if joins_of(f, g.event()) || joins_of(g, f.event()) {
        Because::Join
    } else if some_conflict(f.accesses(), g.accesses()) {
        Because::Access
    } else {
        Because::Allocation
    }
}

/// The reason of an edge.
#[tactic(auto, using(mr_event::proofs::Read::step_read))]
pub fn because_of(run: &[Footprint], i: usize, j: usize) -> Because
    requires first { i < length run.now }
    requires second { j < length run.now }
    ensures { result ≡ because_of run.now i j }
{
    if thread_at(run, i) == thread_at(run, j) {
        return Because::Thread;
    }
    if syncs(run, i, j) {
        return Because::Woken;
    }
    let first = &run[i];
    let second = &run[j];
    bound_by(first, second)
}

/// A reason in words.
pub fn because_word(because: Because) -> &'static str
    ensures { result.now ≡ because_word because }
{
    match because {
        Because::Thread => "in the same thread",
        Because::Woken => "woken or started by it",
        Because::Lock => "by their lock",
        Because::Locks => "both create a lock",
        Because::Starts => "both start a thread",
        Because::Join => "by a join",
        Because::Access => "by what they load and store",
        Because::Allocation => "by an allocation",
    }
}
