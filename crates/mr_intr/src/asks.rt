//! What an intrinsic needs before it acts.
ghost use Rattle.std.specs.Prelude.{◌≡◌, ℕ, List, Option, Some, slice_get};
ghost use Rattle.mr_ast.specs.declared.program.Intrinsic.TheVariants as intrinsic;
ghost use Rattle.mr_ast.specs.declared.types.Ty.{Ty};
ghost use Rattle.mr_mem.specs.Memory.{Memory};
ghost use Rattle.mr_plan.specs.Notes.{Notes};
ghost use Rattle.mr_plan.specs.Queries.{Shared, answer};
ghost use Rattle.mr_base.specs.Script.{run};
ghost use Rattle.mr_sync.specs.Tables.{any_waits, holding};
ghost use Rattle.mr_intr.specs.Effects.{CanTake, Fits, IsOperation, shared_of};
ghost use Rattle.mr_intr.specs.Heap.{allocation_fault};
ghost use Rattle.mr_intr.specs.Needs.{TellsNeeds};
ghost use Rattle.mr_intr.specs.Operations.{operation};

use crate::args::{number_at, size_at};
use crate::heap::allocation_fault;
use crate::need::{Creation, Needs, asking};
use mr_ast::Intrinsic;
use mr_base::Reason;
use mr_sched::Ask;
use mr_sync::SyncTable;
use mr_value::Val;

// Whether some thread waits for the lock.
fn any_waits(sync: &SyncTable, lock: u32) -> bool
    ensures { result ≡ any_waits lock sync.now }
{
    for t in 0..sync.threads() {
        if sync.waiting(lock, t) {
            return true;
        }
    }
    false
}

// Whether some thread waits for a lock that thread `t` holds.
fn waits_for_held(sync: &SyncTable, t: u32, lock: u32) -> Result<bool, Reason>
    ensures { result ≡ holding t (slice_get sync.now.holders lock) (any_waits lock sync.now) }
{
    if lock >= sync.locks() {
        return Err(Reason::UnknownLock);
    }
    if sync.holder(lock) != Some(t) {
        return Err(Reason::NotHolder);
    }
    Ok(any_waits(sync, lock))
}

// An address for an allocation.
fn allocation_needs(args: &[Val]) -> Result<Needs, Reason>
    requires { CanTake intrinsic.Allocate args.now }
    ensures { (types : List Ty) (place : Option Ty) (w : Shared × Notes)
        → TellsNeeds result (run answer (operation intrinsic.Allocate args.now types place) w) }
{
    let size = size_at(args, 0);
    let align = size_at(args, 1);
    match allocation_fault(size, align) {
        Some(reason) => Err(reason),
        None => Ok(asking(Some(Ask::Address { size, align }))),
    }
}

// A waiting thread, where one waits for the lock.
fn release_needs(args: &[Val], sync: &SyncTable, thread: u32) -> Result<Needs, Reason>
    requires { CanTake intrinsic.Release args.now }
    ensures { (types : List Ty) (place : Option Ty) (m : Memory) (n : Notes) → n.tally.thread ≡ thread
        → TellsNeeds result (run answer (operation intrinsic.Release args.now types place) (shared_of m sync.now, n)) }
{
    let lock = number_at(args, 0);
    if waits_for_held(sync, thread, lock)? {
        Ok(asking(Some(Ask::Waiter { lock })))
    } else {
        Ok(asking(None))
    }
}

/// What an intrinsic needs before it acts, by its arguments and who holds and awaits locks; or the reason for which it stops before that.
///
/// It takes no memory.
pub fn needs_of(op: Intrinsic, args: &[Val], sync: &SyncTable, thread: u32) -> Result<Needs, Reason>
    requires operation { IsOperation op }
    requires fits { CanTake op args.now }
    ensures { (types : List Ty) (place : Option Ty) (m : Memory) (n : Notes) → Fits op args.now types place
        → n.tally.thread ≡ thread
        → TellsNeeds result (run answer (operation op args.now types place) (shared_of m sync.now, n)) }
{
    match op {
        Intrinsic::Allocate => allocation_needs(args),
        Intrinsic::Release => release_needs(args, sync, thread),
        Intrinsic::CreateLock => Ok(Needs {
            creates: Creation::Lock,
            ask: None,
        }),
        _ => Ok(asking(None)),
    }
}
