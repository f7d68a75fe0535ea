//! The turn of a thread.
ghost use Rattle.mr_turn.specs.Turning.{BeginsTurn, TakesTurn};

use crate::deed::{Deed, TurnFault};
use crate::doing::do_turn;
use crate::framed::frame_turn;
use mr_eval::Scene;
use mr_frame::{Look, Stack};
use mr_sync::SyncTable;
use std::alloc::Global;

/// The turn of an enabled thread with these picks: its next step.
///
/// A thread whose picks break a rule is left as it was, and so are memory and the tables; of the scene's notes nothing is promised then.
/// Behind `Undefined` and `Memory` nothing is promised of stack, scene and tables.
pub fn turn(
    alloc: Global,
    look: &Look<'_>,
    stack: &mut Stack,
    s: &mut Scene,
    sync: &mut SyncTable,
    picks: &[u64],
) -> Result<Deed, TurnFault>
    requires { BeginsTurn look.now stack.old s.old sync.old }
    ensures { TakesTurn look.now stack.old s.old sync.old picks.now result stack.new s.new sync.new }
{
    match stack.intrinsic(look.program) {
        None => frame_turn(alloc, look, stack, s, sync, picks),
        Some(op) => do_turn(alloc, look, stack, s, sync, op, picks),
    }
}
