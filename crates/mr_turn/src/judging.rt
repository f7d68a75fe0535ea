//! What is judged before a step does anything.
ghost use Rattle.std.specs.Prelude.{◌≡◌, ◌+◌, ◌<◌, ◌^◌, Err, None, Option, if◌then◌else◌, length, nat_lt};
ghost use Rattle.mr_mem.specs.Memory.{Memory};
ghost use Rattle.mr_frame.specs.PlanLegal.{Fault as FaultOf, creation_fault, else_fault, fault};
ghost use Rattle.mr_intr.specs.Effects.{shared_of};
ghost use Rattle.mr_intr.specs.Needs.{creation_of};
ghost use Rattle.mr_frame.specs.Standing.{IsUncounted};
ghost use Rattle.mr_turn.specs.Asking.{bare_fault};
ghost use Rattle.mr_turn.specs.Turning.{JudgeAnswer, StopAnswer, asks_break, shared_in};

use crate::deed::TurnFault;
use mr_base::{MAX_LOCKS, MAX_THREADS, Reason};
use mr_eval::Scene;
use mr_intr::Creation;
use mr_sched::{Ask, ScheduleRule};
use mr_start::{PickFailure, judge};
use mr_sync::SyncTable;

/// The picks for what a step asks.
pub fn judged(s: &Scene, sync: &SyncTable, asks: &[Ask], picks: &[u64]) -> Result<(), TurnFault>
    requires room { s.now.count + length asks.now < 2 ^ 64 }
    requires uncounted { IsUncounted s.now.memory s.now.thread s.now.count }
    ensures { JudgeAnswer result (asks_break s.now sync.now asks.now picks.now) }
{
    match (asks, picks) {
        ([], []) => Ok(()),
        _ => match judge(&s.memory, sync, s.thread, s.count, asks, picks) {
            Ok(()) => Ok(()),
            Err(failure) => Err(TurnFault::Broken(failure)),
        },
    }
}

// A refusal by a rule without an identity.
fn broken(code: u8) -> TurnFault
    ensures { (o : Option FaultOf) → o ≡ bare_fault (Some code) → JudgeAnswer (Err result) o }
{
    TurnFault::Broken(PickFailure {
        code,
        earlier: None,
    })
}

// The number of the rule by which there are no more of something, if there are as many as may be.
fn over(count: u32, limit: u32, rule: ScheduleRule) -> Option<u8>
    ensures { bare_fault result ≡ (if nat_lt count limit then None else fault rule) }
{
    if count < limit {
        None
    } else {
        Some(rule.code())
    }
}

/// The number of the rule of too many threads or locks, where there are as many as may be and one more is to be created.
pub fn over_limit(creates: Creation, sync: &SyncTable) -> Option<u8>
    ensures { (m : Memory) → bare_fault result ≡ creation_fault (shared_of m sync.now) (creation_of creates) }
{
    match creates {
        Creation::Nothing => None,
        Creation::Thread => over(sync.threads(), MAX_THREADS, ScheduleRule::TooManyThreads),
        Creation::Lock => over(sync.locks(), MAX_LOCKS, ScheduleRule::TooManyLocks),
    }
}

// The same as a fault of the step.
fn limited(creates: Creation, sync: &SyncTable) -> Result<(), TurnFault>
    ensures { (m : Memory) → JudgeAnswer result (creation_fault (shared_of m sync.now) (creation_of creates)) }
{
    match over_limit(creates, sync) {
        None => Ok(()),
        Some(code) => Err(broken(code)),
    }
}

/// What a step creates, and then its picks.
pub fn met(
    s: &Scene,
    sync: &SyncTable,
    creates: Creation,
    asks: &[Ask],
    picks: &[u64],
) -> Result<(), TurnFault>
    requires room { s.now.count + length asks.now < 2 ^ 64 }
    requires uncounted { IsUncounted s.now.memory s.now.thread s.now.count }
    ensures { JudgeAnswer result (else_fault (creation_fault (shared_in s.now sync.now) (creation_of creates))
        (asks_break s.now sync.now asks.now picks.now)) }
{
    match limited(creates, sync) {
        Err(fault) => Err(fault),
        Ok(()) => judged(s, sync, asks, picks),
    }
}

/// A step that stops before it needs a pick.
pub fn stopped(reason: Reason, picks: &[u64]) -> TurnFault
    ensures { StopAnswer result reason picks.now }
{
    if picks.is_empty() {
        TurnFault::Undefined(reason)
    } else {
        TurnFault::Broken(PickFailure::of(ScheduleRule::ExtraPick))
    }
}
