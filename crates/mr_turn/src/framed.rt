//! The turn of a thread whose next step is a statement or a terminator that is no intrinsic.
ghost use Rattle.std.specs.Prelude.{◌≡◌, None};
ghost use Rattle.mr_sync.specs.Tables.{IsEnabled};
ghost use Rattle.mr_frame.specs.Acting.{AreLawful};
ghost use Rattle.mr_frame.specs.Kept.{look_of, stack_of};
ghost use Rattle.mr_frame.specs.Operations.{next_do};
ghost use Rattle.mr_turn.specs.Turning.{BeginsTurn, IsFlow, IsJudged, TakesStep, TakesTurn, TellsDeed, breaks};

use crate::deed::{Deed, TurnFault};
use crate::judging::judged;
use mr_base::Event;
use mr_eval::Scene;
use mr_frame::{Flow, Look, Stack};
use mr_sync::SyncTable;
use std::alloc::Global;

// A thread goes on, or has ended; its end wakes those that wait for it.
fn deed_of(alloc: Global, flow: Flow, thread: u32, sync: &mut SyncTable) -> Result<Deed, TurnFault>
    requires { IsEnabled thread sync.old }
    ensures { TellsDeed result (IsFlow flow thread sync.old sync.new) }
{
    let mut woken = Vec::new(alloc);
    match flow {
        Flow::Ended => sync.end(thread, &mut woken)?,
        Flow::Went | Flow::Exit | Flow::Abort => {}
    }
    Ok(Deed {
        flow,
        event: Event::Quiet,
        woken,
        started: None,
        text: None,
    })
}

// The step, whose picks are judged.
fn take(
    alloc: Global,
    look: &Look<'_>,
    stack: &mut Stack,
    s: &mut Scene,
    sync: &mut SyncTable,
    picks: &[u64],
) -> Result<Deed, TurnFault>
    requires begins { BeginsTurn look.now stack.old s.old sync.old }
    requires other { next_do (look_of look.now) (stack_of stack.old) ≡ None }
    requires lawful { AreLawful (look_of look.now) (stack_of stack.old) picks.now s.old }
    ensures { TakesStep look.now stack.old s.old sync.old picks.now result stack.new s.new sync.new }
{
    let thread = s.thread;
    match stack.act(alloc, look, s, picks) {
        Err(fault) => Err(TurnFault::from(fault)),
        Ok(flow) => deed_of(alloc, flow, thread, sync),
    }
}

// The picks for what the step asks, which is looked up.
#[inline(never)]
fn judge_asked(
    alloc: Global,
    look: &Look<'_>,
    stack: &Stack,
    s: &Scene,
    sync: &SyncTable,
    picks: &[u64],
) -> Result<(), TurnFault>
    requires begins { BeginsTurn look.now stack.now s.now sync.now }
    requires other { next_do (look_of look.now) (stack_of stack.now) ≡ None }
    ensures { IsJudged result (breaks look.now stack.now s.now sync.now picks.now) }
{
    let mut asks = Vec::new(alloc);
    stack.asks(alloc, look, &s.memory, &mut asks)?;
    judged(s, sync, asks.as_slice(), picks)
}

// The picks for what the step asks: mostly it asks for nothing, as its form tells, and there is no pick.
fn judge_step(
    alloc: Global,
    look: &Look<'_>,
    stack: &Stack,
    s: &Scene,
    sync: &SyncTable,
    picks: &[u64],
) -> Result<(), TurnFault>
    requires begins { BeginsTurn look.now stack.now s.now sync.now }
    requires other { next_do (look_of look.now) (stack_of stack.now) ≡ None }
    ensures { IsJudged result (breaks look.now stack.now s.now sync.now picks.now) }
{
    if picks.is_empty() {
        if stack.is_quiet(look) {
            return Ok(());
        }
    }
    judge_asked(alloc, look, stack, s, sync, picks)
}

/// The turn of a thread whose next step is no intrinsic.
pub fn frame_turn(
    alloc: Global,
    look: &Look<'_>,
    stack: &mut Stack,
    s: &mut Scene,
    sync: &mut SyncTable,
    picks: &[u64],
) -> Result<Deed, TurnFault>
    requires begins { BeginsTurn look.now stack.old s.old sync.old }
    requires other { next_do (look_of look.now) (stack_of stack.old) ≡ None }
    ensures { TakesTurn look.now stack.old s.old sync.old picks.now result stack.new s.new sync.new }
{
    match judge_step(alloc, look, stack, s, sync, picks) {
        Err(fault) => Err(fault),
        Ok(()) => take(alloc, look, stack, s, sync, picks),
    }
}
