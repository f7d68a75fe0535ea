//! The judging of an entry's picks.
ghost use Rattle.std.specs.Prelude.{◌≡◌, ◌+◌, ◌<◌, ◌^◌, MatchResult, None, Some, length};
ghost use Rattle.mr_mem.specs.Memory.{first_overlapped, ranges_of};
ghost use Rattle.mr_frame.specs.Standing.{IsUncounted};
ghost use Rattle.mr_frame.specs.PlanLegal.{address_fault, picks_fault};
ghost use Rattle.mr_start.specs.Judging.{address_among, fault_of, least, picked, waiter_fault};

use crate::failure::PickFailure;
use mr_base::{AllocId, ranges_meet};
use mr_mem::{Memory, PickFault};
use mr_sched::{Ask, ScheduleRule};
use mr_sync::SyncTable;

// The lesser of two identities.
fn least(a: Option<AllocId>, b: Option<AllocId>) -> Option<AllocId>
    ensures { result ≡ least a b }
{
    match (a, b) {
        (None, _) => b,
        (Some(_), None) => a,
        (Some(first), Some(second)) if second < first => b,
        (Some(_), Some(_)) => a,
    }
}

// The first of the thread's allocations at these picks whose range the new one shares.
fn first_shared(
    thread: u32,
    count: u64,
    asks: &[Ask],
    picks: &[u64],
    addr: u64,
    size: u64,
) -> Option<AllocId>
    requires room { count + length asks.now < 2 ^ 64 }
    requires all { length asks.now ≡ length picks.now }
    ensures { result ≡ first_overlapped addr size (picked thread count asks.now picks.now) }
{
    let mut next = count;
    for (i, ask) in asks.iter().enumerate() {
        if let Ask::Address { size: taken, .. } = *ask {
            if ranges_meet(addr, size, picks[i], taken) {
                return Some(AllocId {
                    thread,
                    count: next,
                });
            }
            next += 1;
        }
    }
    None
}

// An address for a new allocation, where the least allocation among the earlier picks whose range it shares is known.
fn judge_address(
    memory: &Memory,
    earlier: Option<AllocId>,
    addr: u64,
    size: u64,
    align: u64,
) -> Result<(), PickFailure>
    ensures { MatchResult result (λ _. address_among memory.now earlier addr size align ≡ None)
        (λ f. address_among memory.now earlier addr size align ≡ Some (fault_of f)) }
{
    let known = match memory.lawful(addr, size, align) {
        Err(PickFault::BadAddress) => return Err(PickFailure::of(ScheduleRule::BadAddress)),
        Err(PickFault::Reused(id)) => Some(id),
        Ok(()) => None,
    };
    match least(known, earlier) {
        Some(id) => Err(PickFailure::reused(id)),
        None => Ok(()),
    }
}

// A thread that is to get a lock.
fn judge_waiter(sync: &SyncTable, lock: u32, thread: u64) -> Result<(), PickFailure>
    ensures { MatchResult result (λ _. waiter_fault sync.now.statuses lock thread ≡ None)
        (λ f. waiter_fault sync.now.statuses lock thread ≡ Some (fault_of f)) }
{
    if thread < u64::from(sync.threads()) && sync.waiting(lock, thread as u32) {
        return Ok(());
    }
    Err(PickFailure::of(ScheduleRule::NotWaiting))
}

/// An entry's picks against what its step asks for, pick by pick: the first rule that they break. `count` is how many allocations the thread
/// has made; those at earlier picks of the entry get the next identities.
pub fn judge(
    memory: &Memory,
    sync: &SyncTable,
    thread: u32,
    count: u64,
    asks: &[Ask],
    picks: &[u64],
) -> Result<(), PickFailure>
    requires room { count + length asks.now < 2 ^ 64 }
    requires uncounted { IsUncounted memory.now thread count }
    ensures { MatchResult result
        (λ _. picks_fault sync.now.statuses (ranges_of memory.now) thread count asks.now picks.now ≡ None)
        (λ f. picks_fault sync.now.statuses (ranges_of memory.now) thread count asks.now picks.now
        ≡ Some (fault_of f)) }
{
    for (i, ask) in asks.iter().enumerate() {
        if i >= picks.len() {
            return Err(PickFailure::of(ScheduleRule::MissingPick));
        }
        let pick = picks[i];
        match *ask {
            Ask::Address { size, align } => {
                let earlier = first_shared(thread, count, &asks[..i], &picks[..i], pick, size);
                judge_address(memory, earlier, pick, size, align)?;
            }
            Ask::Waiter { lock } => judge_waiter(sync, lock, pick)?,
        }
    }
    if picks.len() > asks.len() {
        return Err(PickFailure::of(ScheduleRule::ExtraPick));
    }
    Ok(())
}
