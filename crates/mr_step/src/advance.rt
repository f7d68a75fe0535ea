//! One entry of a schedule: its rules, and then its step.
ghost use Rattle.std.specs.Prelude.{◌≡◌, ◌<◌, ◌^◌, None, Some};
ghost use Rattle.mr_base.specs.Stops.{stop_with};
ghost use Rattle.mr_frame.specs.Kept.{IsReady, look_of};
ghost use Rattle.mr_eval.specs.Tally.{start_tally};
ghost use Rattle.mr_eval.specs.World.{tally_of};
ghost use Rattle.mr_plan.specs.Runs.{is_running as running_in};
ghost use Rattle.mr_sync.specs.Tables.{is_enabled as enabled_in};
ghost use Rattle.mr_step.specs.Advance.{ActAnswer, AdvanceAnswer, BeginsAct, IsDue, IsSoundBefore, WithoutAnswer};
ghost use Rattle.mr_step.specs.Kept.{config_of};

use crate::fault::{StepFault, broken, refused};
use crate::progress::{Progress, Thread};
use crate::settle::settle;
use mr_base::{Reached, Reason, Verdict};
use mr_eval::Scene;
use mr_frame::Look;
use mr_sched::{Entry, ScheduleRule};
use mr_sync::{Status, SyncTable};
use mr_turn::{Deed, TurnFault, turn};
use std::alloc::Global;

/// No memory holds so many allocations of one thread.
const MOST_ALLOCATIONS: u64 = 0x4000_0000_0000_0000;

fn is_running(verdict: Verdict) -> bool
    ensures { result ≡ running_in verdict }
{
    matches!(verdict, Verdict::Running)
}

fn is_enabled(status: Option<Status>) -> bool
    ensures { result ≡ enabled_in status }
{
    matches!(status, Some(Status::Enabled))
}

// The turn of an enabled thread, in the scene of its step.
fn act(
    alloc: Global,
    look: &Look<'_>,
    thread: &mut Thread,
    scene: &mut Scene,
    sync: &mut SyncTable,
    picks: &[u64],
) -> Result<Deed, TurnFault>
    requires begins { BeginsAct look.now scene.old.thread thread.old scene.old.memory sync.old }
    requires scene { tally_of scene.old ≡ start_tally scene.old.thread scene.old.count }
    requires count { scene.old.count ≡ thread.old.count }
    ensures { ActAnswer (look_of look.now) scene.old.thread picks.now thread.old thread.new
        scene.old.memory scene.new sync.old sync.new result }
{
    if thread.count >= MOST_ALLOCATIONS {
        return Err(TurnFault::Memory);
    }
    turn(alloc, look, &mut thread.stack, scene, sync, picks)
}

// What a step speaks of that stops for a reason, where these bytes were refused last.
fn spoken(reason: Reason, refused: Option<Reached>) -> Option<Reached>
    ensures { result ≡ (stop_with refused reason).about }
{
    if reason.speaks() { refused } else { None }
}

// The step of a thread that has no turn.
fn without(p: &mut Progress, fault: TurnFault) -> Result<(), StepFault>
    ensures { WithoutAnswer fault p.old p.new result }
{
    match fault {
        TurnFault::Undefined(reason) => {
            let about = spoken(reason, p.scene.notes.refused);
            p.stop(Verdict::Undefined(reason), about);
            Ok(())
        }
        TurnFault::Broken(failure) => Err(refused(failure)),
        TurnFault::Memory => Err(StepFault::Memory),
    }
}

// The step of an enabled thread, in a state in which the machine runs.
fn take(alloc: Global, look: &Look<'_>, p: &mut Progress, entry: &Entry) -> Result<(), StepFault>
    requires { IsDue look.now entry.now.thread p.old }
    ensures { AdvanceAnswer (look_of look.now) entry.now (config_of p.old) (config_of p.new) result }
{
    let number = entry.thread;
    let thread = &mut p.threads[number as usize];
    p.scene.begin(number, thread.count);
    match act(
        alloc,
        look,
        thread,
        &mut p.scene,
        &mut p.sync,
        entry.picks.as_slice(),
    ) {
        Ok(deed) => Ok(settle(alloc, look, p, number, deed)?),
        Err(fault) => without(p, fault),
    }
}

/// The step of an entry.
pub fn advance(
    alloc: Global,
    look: &Look<'_>,
    p: &mut Progress,
    entry: &Entry,
) -> Result<(), StepFault>
    requires { IsSoundBefore look.now p.old }
    ensures { AdvanceAnswer (look_of look.now) entry.now (config_of p.old) (config_of p.new) result }
{
    if p.gone || !is_running(p.verdict) {
        return Err(broken(ScheduleRule::AfterStop));
    }
    if !is_enabled(p.sync.status(entry.thread)) {
        return Err(broken(ScheduleRule::NotEnabled));
    }
    take(alloc, look, p, entry)
}
