//! What the next step of a thread asks for.
ghost use Rattle.mr_frame.specs.Kept.{look_of};
ghost use Rattle.mr_plan.specs.Machine.{needs};
ghost use Rattle.mr_exchange.specs.StartSteps.{thread_step};
ghost use Rattle.mr_turn.specs.Asking.{AsksAnswer};
ghost use Rattle.mr_step.specs.Advance.{CanAsk};
ghost use Rattle.mr_step.specs.Kept.{state_of};

use crate::progress::Progress;
use mr_frame::Look;
use mr_sched::Ask;
use mr_turn::asks;
use std::alloc::{AllocError, Global};

/// Appends what the next step of an enabled thread asks for.
pub fn asked(
    alloc: Global,
    look: &Look<'_>,
    p: &Progress,
    t: u32,
    out: &mut Vec<Ask>,
) -> Result<Option<u8>, AllocError>
    requires { CanAsk look.now t p.now }
    ensures { AsksAnswer (state_of p.now).shared
        (needs (thread_step (look_of look.now)) (state_of p.now) t) out.old.items out.new.items result }
{
    let thread = &p.threads[t as usize];
    asks(alloc, look, &thread.stack, &p.scene.memory, &p.sync, t, out)
}
