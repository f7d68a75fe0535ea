//! Whether a step wakes a thread, and whether a later step of another thread depends on it.

ghost use Rattle.std.specs.Prelude.{◌≡◌, ◌==◌};
ghost use Rattle.std.specs.List.{list_any};
ghost use Rattle.mr_base.specs.Identities.{same_id as is_same_id};
ghost use Rattle.mr_event.specs.Footprints.{share_id as have_shared_id, lock_of as lock_in, same_lock as have_same_lock, both_create as are_both_creating, both_spawn as are_both_spawning, joins_of as is_joining, depends as is_dependent, spawns as is_spawning, wakes as is_waking};

use crate::footprint::Footprint;
use mr_base::{AllocId, Event, some_conflict};

fn same_id(a: AllocId, b: AllocId) -> bool
    ensures { result ≡ is_same_id a b }
{
    a.thread == b.thread && a.count == b.count
}

fn contains_id(a: AllocId, list: &[AllocId]) -> bool
    ensures { result ≡ list_any (is_same_id a) list.now }
{
    list.iter().any(|b| same_id(a, *b))
}

// Whether some allocation stands in both lists.
fn share_id(a: &[AllocId], b: &[AllocId]) -> bool
    ensures { result ≡ have_shared_id a.now b.now }
{
    a.iter().any(|x| contains_id(*x, b))
}

// The lock that a step acts on.
fn lock_of(event: Event) -> Option<u32>
    ensures { result ≡ lock_in event }
{
    match event {
        Event::CreateLock(lock) | Event::Acquire(lock) | Event::Release(lock) => Some(lock),
        _ => None,
    }
}

fn same_lock(a: Event, b: Event) -> bool
    ensures { result ≡ have_same_lock a b }
{
    match (lock_of(a), lock_of(b)) {
        (Some(x), Some(y)) => x == y,
        _ => false,
    }
}

fn both_create(a: Event, b: Event) -> bool
    ensures { result ≡ are_both_creating a b }
{
    matches!((a, b), (Event::CreateLock(_), Event::CreateLock(_)))
}

fn both_spawn(a: Event, b: Event) -> bool
    ensures { result ≡ are_both_spawning a b }
{
    matches!((a, b), (Event::Spawn(_), Event::Spawn(_)))
}

// Whether the event spawns the thread.
fn spawns(event: Event, thread: u32) -> bool
    ensures { result ≡ is_spawning event thread }
{
    match event {
        Event::Spawn(spawned) => spawned == thread,
        _ => false,
    }
}

// Whether `g` joins the thread that `f` spawns or ends.
fn joined_by(f: &Footprint, g: &Footprint) -> bool
    ensures { result ≡ is_joining f.now g.now.event }
{
    match g.event() {
        Event::Join(joined) => spawns(f.event(), joined) || (f.ended() && f.thread() == joined),
        _ => false,
    }
}

/// Whether the step `g` depends on `f`, an earlier step of another thread: both act on one lock, create locks or spawn;
/// one spawns or ends a thread that the other joins; `f` made what `g` touches or frees, or touched what `g` frees; or
/// they access a byte in common, one of them storing.
#[tactic(auto, unfolding(crate::specs::Footprints::depends))]
pub fn depends(f: &Footprint, g: &Footprint) -> bool
    ensures { result ≡ is_dependent f.now g.now }
{
    same_lock(f.event(), g.event())
        || both_create(f.event(), g.event())
        || both_spawn(f.event(), g.event())
        || joined_by(f, g)
        || joined_by(g, f)
        || share_id(f.allocated(), g.touched())
        || share_id(f.allocated(), g.freed())
        || share_id(f.touched(), g.freed())
        || some_conflict(f.accesses(), g.accesses())
}

fn contains_thread(list: &[u32], thread: u32) -> bool
    ensures { result ≡ list_any (λ t. t == thread) list.now }
{
    list.iter().any(|t| *t == thread)
}

/// Whether `f` woke or created the thread.
#[tactic(auto, unfolding(crate::specs::Footprints::wakes))]
pub fn wakes(f: &Footprint, thread: u32) -> bool
    ensures { result ≡ is_waking f.now thread }
{
    contains_thread(f.woken(), thread) || spawns(f.event(), thread)
}
