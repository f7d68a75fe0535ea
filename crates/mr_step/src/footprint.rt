//! The footprint of a completed step, and the verdict behind it.
ghost use Rattle.std.specs.Prelude.{◌≡◌, OnOk, Some, option_copied};
ghost use Rattle.mr_plan.specs.Runs.{races_with as is_racing};
ghost use Rattle.mr_event.specs.Footprint.{Footprint as FootprintOf};
ghost use Rattle.mr_event.specs.Lists.{footprint_of};
ghost use Rattle.mr_turn.specs.declared.deed.Deed.{Deed as DeedOf};
ghost use Rattle.mr_turn.specs.Turning.{is_end as is_ending};
ghost use Rattle.mr_step.specs.Settling.{foot_by, verdict_in};

use mr_base::{Accesses, Reason, Verdict, some_race};
use mr_eval::Scene;
use mr_event::{Latest, Step, wakes};
use mr_frame::Flow;
use mr_sync::SyncTable;
use mr_turn::Deed;
use std::alloc::{AllocError, Global};

/// Whether a thread has ended.
pub fn is_end(flow: Flow) -> bool
    ensures { result ≡ is_ending flow }
{
    matches!(flow, Flow::Ended)
}

// The step that a turn made.
fn step_of<'a>(scene: &'a Scene, deed: &'a Deed) -> Step<'a>
    ensures { footprint_of result ≡ foot_by scene.now deed.now }
{
    Step {
        thread: scene.thread,
        event: deed.event,
        ended: is_end(deed.flow),
        accesses: scene.notes.accesses.as_slice(),
        allocated: scene.made.as_slice(),
        freed: scene.freed.as_slice(),
        touched: scene.notes.touched.as_slice(),
        woken: deed.woken.as_slice(),
    }
}

/// The footprint that a turn leaves takes the place of the last one.
pub fn keep_last(
    alloc: Global,
    last: &mut Option<Latest>,
    scene: &Scene,
    deed: &Deed,
) -> Result<(), AllocError>
    ensures { OnOk result (last.new ≡ Some (foot_by scene.now deed.now)) }
{
    let step = step_of(scene, deed);
    if let Some(latest) = last {
        return latest.refill(&step);
    }
    *last = Some(Latest::of(alloc, &step)?);
    Ok(())
}

// Whether a step of a thread with these accesses races with the one immediately before it.
fn races(thread: u32, accesses: &Accesses, last: Option<&Latest>) -> bool
    ensures { (f : FootprintOf) → f.thread ≡ thread → f.accesses ≡ accesses.now
        → result ≡ is_racing f (option_copied last.entry) }
{
    match last {
        None => false,
        Some(last) => {
            let last = last.footprint();
            last.thread() != thread
                && !wakes(last, thread)
                && some_race(last.accesses(), accesses.as_slice())
        }
    }
}

/// The verdict behind a completed step that left this scene: the race check comes first, and then whether a thread is enabled.
pub fn verdict_behind(last: Option<&Latest>, scene: &Scene, sync: &SyncTable) -> Verdict
    ensures { (d : DeedOf) → result ≡ verdict_in (option_copied last.entry) (foot_by scene.now d) sync.now }
{
    if races(scene.thread, &scene.notes.accesses, last) {
        Verdict::Undefined(Reason::DataRace)
    } else if sync.any_enabled() {
        Verdict::Running
    } else {
        Verdict::Deadlock
    }
}
