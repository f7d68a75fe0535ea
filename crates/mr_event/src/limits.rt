//! Whether a footprint keeps the limits of the machine.

ghost use Rattle.std.specs.Prelude.{ℕ, ◌<◌, ◌↔◌, IsTrue, All};
ghost use Rattle.std.specs.List.Sorted.{IsStrictlyIncreasing};
ghost use Rattle.mr_base.specs.Limits.{max_threads};
ghost use Rattle.mr_event.specs.FootOk.{IsAccessOk, IsEventOk, IsFootOk};

use crate::footprint::Footprint;
use mr_base::{Access, AllocId, Event, MAX_LOCKS, MAX_THREADS};

fn threads_ok(list: &[u32]) -> bool
    ensures { IsTrue result ↔ All (λ t. t < max_threads) list.now }
{
    list.iter().all(|t| *t < MAX_THREADS)
}

fn ids_ok(list: &[AllocId]) -> bool
    ensures { IsTrue result ↔ All (λ a. a.thread < max_threads) list.now }
{
    list.iter().all(|a| a.thread < MAX_THREADS)
}

fn access_ok(a: &Access) -> bool
    ensures { IsTrue result ↔ IsAccessOk a.now }
{
    let addr = a.addr;
    let len = a.len;
    len != 0 && len - 1 <= u64::MAX - addr
}

fn accesses_ok(list: &[Access]) -> bool
    ensures { IsTrue result ↔ All IsAccessOk list.now }
{
    list.iter().all(|a| access_ok(a))
}

fn rises(list: &[u32]) -> bool
    ensures { IsTrue result ↔ IsStrictlyIncreasing list.now }
{
    for i in 1..list.len() {
        if list[i - 1] >= list[i] {
            return false;
        }
    }
    true
}

fn event_ok(event: Event) -> bool
    ensures { IsTrue result ↔ IsEventOk event }
{
    match event {
        Event::Quiet => true,
        Event::CreateLock(lock) | Event::Acquire(lock) | Event::Release(lock) => lock < MAX_LOCKS,
        Event::Spawn(thread) | Event::Join(thread) => thread < MAX_THREADS,
    }
}

/// Whether each thread, lock and access of the footprint keeps the machine's limit, and the woken threads rise.
pub fn foot_ok(f: &Footprint) -> bool
    ensures { IsTrue result ↔ IsFootOk f.now }
{
    f.thread() < MAX_THREADS
        && threads_ok(f.woken())
        && rises(f.woken())
        && event_ok(f.event())
        && ids_ok(f.allocated())
        && ids_ok(f.freed())
        && ids_ok(f.touched())
        && accesses_ok(f.accesses())
}
