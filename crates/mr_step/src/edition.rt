//! Which accesses a step has, by the edition of its program.
ghost use Rattle.std.specs.Prelude.{◌≡◌, ◌++◌, OnOk};
ghost use Rattle.mr_plan.specs.Notes.{whole_store, whole_stores};
ghost use Rattle.mr_step.specs.Settling.{completed};

use mr_base::{Access, Accesses, AllocId};
use mr_eval::Scene;
use mr_mem::Memory;
use std::alloc::AllocError;

// A store of all bytes of an allocation, where it has one.
fn store_whole(accesses: &mut Accesses, extent: Option<(u64, u64)>) -> Result<(), AllocError>
    ensures { OnOk result (accesses.new ≡ accesses.old ++ whole_store extent) }
{
    match extent {
        Some((addr, len)) if len != 0 => accesses.add(Access {
            store: true,
            atomic: false,
            addr,
            len,
        }),
        _ => Ok(()),
    }
}

// The same of each of these, in order.
fn store_freed(
    memory: &Memory,
    freed: &[AllocId],
    accesses: &mut Accesses,
) -> Result<(), AllocError>
    ensures { OnOk result (accesses.new ≡ accesses.old ++ whole_stores memory.now freed.now) }
{
    for id in freed {
        store_whole(accesses, memory.range(*id))?;
    }
    Ok(())
}

/// Completes the accesses of a turn: in edition 2 a deallocation stores to all bytes of what it frees.
#[tactic(auto, unfolding(mr_plan::specs::Notes::accesses_in))]
pub fn complete_accesses(edition: u8, scene: &mut Scene) -> Result<(), AllocError>
    ensures { OnOk result (scene.new ≡ completed edition scene.old) }
{
    if edition == 2 {
        store_freed(
            &scene.memory,
            scene.freed.as_slice(),
            &mut scene.notes.accesses,
        )?;
    }
    Ok(())
}
