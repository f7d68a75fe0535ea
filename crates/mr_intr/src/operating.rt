//! Each intrinsic by its name.
ghost use Rattle.std.specs.Prelude.{◌≡◌, IfOk, OnErr, option_copied};
ghost use Rattle.mr_sync.specs.Tables.{IsEnabled};
ghost use Rattle.mr_intr.specs.Effects.{AreLawful, CanCount, Does, CanTake, Fits, IsOperation, begun, operated, FitsPlace};

use crate::atomics::{atomic_load, atomic_store, compare_exchange, fetch};
use crate::effect::Effect;
use crate::heap::{allocate, deallocate};
use crate::locks::{acquire, create_lock, join, release};
use crate::texts::{assume, print};
use mr_ast::Intrinsic;
use mr_eval::{Fault, Plain, Scene};
use mr_sync::SyncTable;
use mr_value::Val;

/// What an intrinsic does with arguments that fit it, for the scene's thread and with picks that break no rule.
///
/// A refusal changes neither threads and locks nor the output.
pub fn operate(
    op: Intrinsic,
    args: &[Val],
    arg_types: &[Plain],
    result_type: Option<&Plain>,
    s: &mut Scene,
    sync: &mut SyncTable,
    output: &mut Vec<u8>,
    picks: &[u64],
) -> Result<Effect, Fault>
    requires operation { IsOperation op }
    requires fits { Fits op args.now arg_types.now (option_copied result_type) }
    requires enabled { IsEnabled s.old.thread sync.old }
    requires lawful { AreLawful op args.now arg_types.now (option_copied result_type) picks.now s.old sync.old }
    requires count { CanCount s.old }
    ensures done { Does op result (operated op args.now arg_types.now (option_copied result_type.entry) picks.now
        (begun s.old sync.old)) s.new sync.new output.old.items output.new.items }
    ensures value { IfOk result (λ e. FitsPlace (option_copied result_type.entry) e.value) }
    ensures err { OnErr result (sync.new ≡ sync.old) }
{
    match op {
        Intrinsic::Assume => assume(args),
        Intrinsic::Print => print(args, arg_types, output),
        Intrinsic::Allocate => allocate(args, s, picks),
        Intrinsic::Deallocate => deallocate(args, s),
        Intrinsic::Join => join(args, s.thread, sync),
        Intrinsic::CreateLock => create_lock(sync),
        Intrinsic::Acquire => acquire(args, s.thread, sync),
        Intrinsic::Release => release(args, s.thread, sync, picks),
        Intrinsic::AtomicStore => atomic_store(args, arg_types, s),
        Intrinsic::AtomicLoad => atomic_load(args, result_type, s),
        Intrinsic::CompareExchange => compare_exchange(args, result_type, s),
        Intrinsic::FetchAdd
        | Intrinsic::FetchSub
        | Intrinsic::FetchAnd
        | Intrinsic::FetchOr
        | Intrinsic::FetchXor => fetch(op, args, result_type, s),
        Intrinsic::Spawn | Intrinsic::Payload => unreachable!(),
    }
}
