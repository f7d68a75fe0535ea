//! For each thread the steps that woke or created it. (Lamport: happens-before.) Such a step happens before the next
//! one of the thread. A thread has mostly one of them since the step before, so that they are found at once.

ghost use Rattle.std.specs.Prelude.{◌≡◌, ◌≢◌, ℕ, ◌+◌, ◌-◌, ◌<◌, ◌≤◌, ◌^◌, IfOk, IsFalse, IsTrue, OnOk, length};
ghost use Rattle.std.specs.Prelude.{slice_index, vec_capacity, vec_len};
ghost use Rattle.mr_event.specs.Footprints.{spawns};
ghost use Rattle.mr_event.specs.Order.{step_at, thread_at, Sync};
ghost use Rattle.mr_clocks.specs.Clocks.{AreClocks, IsPart, IsUnder};
ghost use Rattle.mr_clocks.specs.Rows.{IsKept, link_at, step_of};
ghost use Rattle.mr_clocks.specs.Tracked.{IsNext};
ghost use Rattle.mr_clocks.specs.Wakers.{AreExtended, AreSyncsUnder, AreWakers, CanNote, HasRoom, IsUnwoken};
ghost use Rattle.mr_clocks.specs.Wakers.{wakes_nobody as does_wake_nobody};

use crate::analysis::is_under;
use crate::clock::{Clock, extend_past};
use crate::following::follow_edge;
use crate::keys::asks_spawning;
use crate::made::is_either;
use crate::order::edge;
use crate::rows::{Link, reserve_links};
use mr_event::{Event, Footprint, OutOfMemory, thread_at};

/// For each thread one more than the place of the link to the latest step that woke or created it, or 0; and the links.
#[derive(Drop)]
pub(crate) struct Wakers {
    pub heads: Vec<u32>,
    pub links: Vec<Link>,
}

// The number at which the links of a thread begin.
fn head(wakers: &Wakers, thread: u32) -> u32
    ensures { result ≡ slice_index wakers.now.heads.items thread }
{
    match wakers.heads.get(thread as usize) {
        Some(head) => *head,
        None => 0,
    }
}

// The link that stands before a number.
fn link_before(wakers: &Wakers, at: u32) -> Link
    requires some { 0 < at }
    requires low { at ≤ length wakers.now.links.items }
    ensures { result ≡ link_at wakers.now.links.items (at - 1) }
{
    wakers.links[at as usize - 1]
}

/// Whether a step woke or created the thread of step `j` and is not before the step before in it, which is before
/// `next`.
pub(crate) fn is_woken(run: &[Footprint], wakers: &Wakers, j: usize, next: usize) -> bool
    requires within { j < length run.now }
    requires wakers { AreWakers run.now j j wakers.now.heads.items wakers.now.links.items }
    requires next { IsNext run.now j next }
    ensures { IsFalse result → IsUnwoken run.now j }
{
    let at = head(wakers, thread_at(run, j));
    if at == 0 {
        return false;
    }
    let i = link_before(wakers, at).step as usize;
    if i < next {
        return false;
    }
    true
}

// Follows step `i`, if it is of another thread than step `j` and an edge leads from it, unless the clock knows it.
fn follow_waker(
    run: &[Footprint],
    clocks: &[Clock],
    numbers: &[u32],
    i: usize,
    clock: &mut Clock,
    j: usize,
    next: usize,
) -> Result<bool, OutOfMemory>
    requires order { i < j }
    requires within { j < length run.now }
    requires few { length run.now < 2 ^ 32 }
    requires clocks { AreClocks run.now j clocks.now numbers.now }
    requires next { IsNext run.now j next }
    requires part { IsPart run.now clock.old j }
    ensures part { OnOk result (IsPart run.now clock.new j) }
    ensures under { OnOk result (Sync run.now i j → thread_at run.now i ≢ thread_at run.now j
        → IsUnder run.now clock.new i) }
    ensures kept { OnOk result ((m : ℕ) → IsUnder run.now clock.old m → IsUnder run.now clock.new m) }
    ensures same { IfOk result (λ changed. IsFalse changed → clock.new ≡ clock.old) }
{
    let thread = thread_at(run, i);
    if thread == thread_at(run, j) {
        return Ok(false);
    }
    if is_under(run, &*clock, i) {
        return Ok(false);
    }
    if edge(run, i, j, next) {
        follow_edge(run, clocks, numbers, i, clock, j)?;
        return Ok(true);
    }
    Ok(false)
}

/// Follows the steps of other threads that woke or created the thread of step `j` and are not before the step before in
/// it, the latest first. Tells whether the clock changed.
pub(crate) fn follow_wakers(
    run: &[Footprint],
    clocks: &[Clock],
    numbers: &[u32],
    wakers: &Wakers,
    clock: &mut Clock,
    j: usize,
    next: usize,
) -> Result<bool, OutOfMemory>
    requires within { j < length run.now }
    requires few { length run.now < 2 ^ 32 }
    requires clocks { AreClocks run.now j clocks.now numbers.now }
    requires wakers { AreWakers run.now j j wakers.now.heads.items wakers.now.links.items }
    requires next { IsNext run.now j next }
    requires part { IsPart run.now clock.old j }
    ensures part { OnOk result (IsPart run.now clock.new j) }
    ensures syncs { OnOk result (AreSyncsUnder run.now clock.new j) }
    ensures same { IfOk result (λ changed. IsFalse changed → clock.new ≡ clock.old) }
{
    let mut at = head(wakers, thread_at(run, j));
    let mut changed = false;
    while at > 0 {
        let link = link_before(wakers, at);
        let i = link.step as usize;
        if i < next {
            return Ok(changed);
        }
        let followed = follow_waker(run, clocks, numbers, i, clock, j, next)?;
        changed = is_either(changed, followed);
        at = link.before;
    }
    Ok(changed)
}

// Numbers for each of some threads: 0 where there was none.
fn extend_to(heads: &mut Vec<u32>, threads: &[u32]) -> Result<(), OutOfMemory>
    ensures kept { AreExtended heads.old.items heads.new.items }
    ensures reached { OnOk result
        ((y : ℕ) → y < length threads.now → slice_index threads.now y < length heads.new.items) }
{
    for y in 0..threads.len() {
        extend_past(heads, threads[y] as usize)?;
    }
    Ok(())
}

// The same for a thread that an event spawns.
fn extend_by(heads: &mut Vec<u32>, event: Event) -> Result<(), OutOfMemory>
    ensures kept { AreExtended heads.old.items heads.new.items }
    ensures reached { OnOk result ((t : ℕ) → IsTrue (spawns event t) → t < length heads.new.items) }
{
    match event {
        Event::Spawn(thread) => {
            extend_past(heads, thread as usize)?;
            Ok(())
        }
        _ => Ok(()),
    }
}

// Takes the room for the threads that step `j` wakes or creates: a number for each, and as many links.
#[inline(never)]
#[tactic(auto, using(mr_event::proofs::Read::step_read))]
fn make_room(run: &[Footprint], wakers: &mut Wakers, j: usize) -> Result<(), OutOfMemory>
    requires { j < length run.now }
    ensures heads { AreExtended wakers.old.heads.items wakers.new.heads.items }
    ensures links { wakers.new.links.items ≡ wakers.old.links.items }
    ensures room { OnOk result (CanNote (step_at run.now j) wakers.new) }
{
    let step = &run[j];
    reserve_links(&mut wakers.links, step.woken().len() + 1)?;
    extend_to(&mut wakers.heads, step.woken())?;
    extend_by(&mut wakers.heads, step.event())?;
    Ok(())
}

// Whether a step woke and created no thread.
fn wakes_nobody(step: &Footprint) -> bool
    ensures { result ≡ does_wake_nobody step.now }
{
    !asks_spawning(step.event()) && step.woken().is_empty()
}

/// Takes the room that it needs to note whom step `j` woke or created, which is mostly nobody.
pub(crate) fn prepare_wakes(
    run: &[Footprint],
    wakers: &mut Wakers,
    j: usize,
) -> Result<(), OutOfMemory>
    requires { j < length run.now }
    ensures heads { AreExtended wakers.old.heads.items wakers.new.heads.items }
    ensures links { wakers.new.links.items ≡ wakers.old.links.items }
    ensures room { OnOk result (CanNote (step_at run.now j) wakers.new) }
{
    let step = &run[j];
    if wakes_nobody(step) {
        return Ok(());
    }
    make_room(run, wakers, j)
}

// Whether the first link from a number on keeps step `j`.
fn is_first(links: &[Link], at: u32, j: usize) -> bool
    requires { at ≤ length links.now }
    ensures some { IsTrue result → 0 < at }
    ensures here { IsTrue result → (k : ℕ) → at ≡ k + 1 → step_of links.now k ≡ j }
    ensures other { IsFalse result → (k : ℕ) → at ≡ k + 1 → step_of links.now k ≢ j }
{
    if at == 0 {
        return false;
    }
    let i = links[at as usize - 1].step as usize;
    if i == j {
        return true;
    }
    false
}

// Notes that step `j` woke or created a thread.
fn note_wake(run: &[Footprint], wakers: &mut Wakers, thread: u32, j: usize)
    requires small { j < 2 ^ 32 }
    requires wakers { AreWakers run.now (j + 1) j wakers.old.heads.items wakers.old.links.items }
    requires reached { thread < length wakers.old.heads.items }
    requires room { vec_len wakers.old.links < vec_capacity wakers.old.links }
    requires few { vec_len wakers.old.links + 1 < 2 ^ 32 }
    ensures wakers { AreWakers run.now (j + 1) j wakers.new.heads.items wakers.new.links.items }
    ensures own { IsKept wakers.new.links.items (slice_index wakers.new.heads.items thread) j }
    ensures kept { (t : ℕ) → IsKept wakers.old.links.items (slice_index wakers.old.heads.items t) j
        → IsKept wakers.new.links.items (slice_index wakers.new.heads.items t) j }
    ensures reach { length wakers.new.heads.items ≡ length wakers.old.heads.items }
    ensures one { vec_len wakers.new.links ≤ vec_len wakers.old.links + 1 }
    ensures room { vec_capacity wakers.new.links ≡ vec_capacity wakers.old.links }
{
    let before = head(&*wakers, thread);
    if is_first(wakers.links.as_slice(), before, j) {
        return;
    }
    wakers.links.push_reserved(Link {
        step: j as u32,
        before,
    });
    wakers.heads[thread as usize] = wakers.links.len() as u32;
}

// Notes that step `j` woke some threads.
fn note_woken(run: &[Footprint], wakers: &mut Wakers, threads: &[u32], j: usize)
    requires small { j < 2 ^ 32 }
    requires wakers { AreWakers run.now (j + 1) j wakers.old.heads.items wakers.old.links.items }
    requires reached { (y : ℕ) → y < length threads.now
        → slice_index threads.now y < length wakers.old.heads.items }
    requires room { vec_len wakers.old.links + length threads.now ≤ vec_capacity wakers.old.links }
    requires few { vec_len wakers.old.links + length threads.now < 2 ^ 32 }
    ensures wakers { AreWakers run.now (j + 1) j wakers.new.heads.items wakers.new.links.items }
    ensures own { (y : ℕ) → y < length threads.now
        → IsKept wakers.new.links.items (slice_index wakers.new.heads.items (slice_index threads.now y)) j }
    ensures reach { length wakers.new.heads.items ≡ length wakers.old.heads.items }
    ensures more { vec_len wakers.new.links ≤ vec_len wakers.old.links + length threads.now }
    ensures room { vec_capacity wakers.new.links ≡ vec_capacity wakers.old.links }
{
    for y in 0..threads.len() {
        note_wake(run, wakers, threads[y], j);
    }
}

// Notes that step `j` spawned a thread, if its event is that.
fn note_spawned(run: &[Footprint], wakers: &mut Wakers, event: Event, j: usize)
    requires small { j < 2 ^ 32 }
    requires wakers { AreWakers run.now (j + 1) j wakers.old.heads.items wakers.old.links.items }
    requires reached { (t : ℕ) → IsTrue (spawns event t) → t < length wakers.old.heads.items }
    requires room { vec_len wakers.old.links < vec_capacity wakers.old.links }
    requires few { vec_len wakers.old.links + 1 < 2 ^ 32 }
    ensures wakers { AreWakers run.now (j + 1) j wakers.new.heads.items wakers.new.links.items }
    ensures own { (t : ℕ) → IsTrue (spawns event t)
        → IsKept wakers.new.links.items (slice_index wakers.new.heads.items t) j }
    ensures kept { (t : ℕ) → IsKept wakers.old.links.items (slice_index wakers.old.heads.items t) j
        → IsKept wakers.new.links.items (slice_index wakers.new.heads.items t) j }
{
    match event {
        Event::Spawn(thread) => note_wake(run, wakers, thread, j),
        _ => {}
    }
}

// Notes which threads step `j` woke or created.
#[inline(never)]
#[tactic(auto, using(mr_event::proofs::Read::step_read))]
fn note_wakes(run: &[Footprint], wakers: &mut Wakers, j: usize)
    requires within { j < length run.now }
    requires few { length run.now < 2 ^ 32 }
    requires wakers { AreWakers run.now j j wakers.old.heads.items wakers.old.links.items }
    requires room { HasRoom (step_at run.now j) wakers.old }
    ensures { AreWakers run.now (j + 1) (j + 1) wakers.new.heads.items wakers.new.links.items }
{
    let step = &run[j];
    note_woken(run, wakers, step.woken(), j);
    note_spawned(run, wakers, step.event(), j);
}

/// Notes which threads step `j` woke or created, if any. The room for them is there.
pub(crate) fn enter_wakes(run: &[Footprint], wakers: &mut Wakers, j: usize)
    requires within { j < length run.now }
    requires few { length run.now < 2 ^ 32 }
    requires wakers { AreWakers run.now j j wakers.old.heads.items wakers.old.links.items }
    requires room { CanNote (step_at run.now j) wakers.old }
    ensures { AreWakers run.now (j + 1) (j + 1) wakers.new.heads.items wakers.new.links.items }
{
    let step = &run[j];
    if wakes_nobody(step) {
        return;
    }
    note_wakes(run, wakers, j);
}
