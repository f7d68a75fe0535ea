//! Threads and locks.
ghost use Rattle.std.specs.Prelude.{◌≡◌, ℕ, ◌<◌, [], length, List, Option, Some, None, IfOk, OnErr};
ghost use Rattle.mr_base.specs.Limits.{max_locks};
ghost use Rattle.mr_ast.specs.declared.program.Intrinsic.TheVariants as intrinsic;
ghost use Rattle.mr_ast.specs.declared.types.IntType.TheVariants.{U32};
ghost use Rattle.mr_ast.specs.declared.types.Ty.{Ty};
ghost use Rattle.mr_ast.specs.declared.types.Ty.TheVariants as ty;
ghost use Rattle.mr_eval.specs.declared.scene.Scene.{Scene};
ghost use Rattle.mr_sync.specs.Tables.{IsEnabled};
ghost use Rattle.mr_intr.specs.Arguments.{PicksThread};
ghost use Rattle.mr_intr.specs.Effects.{AreLawful, CanTake, ChangesTables, Fits, FitsPlace, listed};

use crate::args::number_at;
use crate::effect::Effect;
use mr_base::Event;
use mr_eval::Fault;
use mr_sync::SyncTable;
use mr_value::Val;

/// The thread goes on behind the end of another, or waits for it.
pub fn join(args: &[Val], thread: u32, sync: &mut SyncTable) -> Result<Effect, Fault>
    requires fits { CanTake intrinsic.Join args.now }
    requires enabled { IsEnabled thread sync.old }
    ensures done { (picks : List ℕ) → ChangesTables intrinsic.Join result args.now picks thread sync.old sync.new }
    ensures value { IfOk result (λ e. FitsPlace None e.value) }
    ensures err { OnErr result (sync.new ≡ sync.old) }
{
    let target = number_at(args, 0);
    match sync.join(thread, target) {
        Ok(_) => Ok(Effect::noted(Event::Join(target))),
        Err(reason) => Err(Fault::Undefined(reason)),
    }
}

/// A new lock, and its number.
pub fn create_lock(sync: &mut SyncTable) -> Result<Effect, Fault>
    requires { length sync.old.holders < max_locks }
    ensures done { (picks : List ℕ) (thread : ℕ)
        → ChangesTables intrinsic.CreateLock result [] picks thread sync.old sync.new }
    ensures value { IfOk result (λ e. FitsPlace (Some (ty.Int U32)) e.value) }
    ensures err { OnErr result (sync.new ≡ sync.old) }
{
    let lock = sync.create_lock()?;
    Ok(Effect {
        value: Some(Val::Int(lock as u128)),
        event: Event::CreateLock(lock),
        woken: None,
    })
}

/// The thread takes a lock, or waits for it.
pub fn acquire(args: &[Val], thread: u32, sync: &mut SyncTable) -> Result<Effect, Fault>
    requires fits { CanTake intrinsic.Acquire args.now }
    requires enabled { IsEnabled thread sync.old }
    ensures done { (picks : List ℕ) → ChangesTables intrinsic.Acquire result args.now picks thread sync.old sync.new }
    ensures value { IfOk result (λ e. FitsPlace None e.value) }
    ensures err { OnErr result (sync.new ≡ sync.old) }
{
    let lock = number_at(args, 0);
    match sync.acquire(thread, lock) {
        Ok(_) => Ok(Effect::noted(Event::Acquire(lock))),
        Err(reason) => Err(Fault::Undefined(reason)),
    }
}

// The thread that is picked, where one is: one of so many threads.
fn picked(picks: &[u64], threads: u32) -> Option<u32>
    requires { PicksThread threads picks.now }
    ensures { picks.now ≡ listed result }
{
    match picks.first() {
        Some(waiter) => {
            let named = *waiter < threads as u64;
            prove!(named);
            Some(*waiter as u32)
        }
        None => None,
    }
}

/// The thread gives a lock back, to the waiting thread that is picked, or to none where none waits.
pub fn release(
    args: &[Val],
    thread: u32,
    sync: &mut SyncTable,
    picks: &[u64],
) -> Result<Effect, Fault>
    requires fits { CanTake intrinsic.Release args.now }
    requires enabled { IsEnabled thread sync.old }
    requires lawful { (types : List Ty) × (place : Option Ty) × (s : Scene) × (s.thread ≡ thread)
        × AreLawful intrinsic.Release args.now types place picks.now s sync.old }
    ensures done { ChangesTables intrinsic.Release result args.now picks.now thread sync.old sync.new }
    ensures value { IfOk result (λ e. FitsPlace None e.value) }
    ensures err { OnErr result (sync.new ≡ sync.old) }
{
    let lock = number_at(args, 0);
    let to = picked(picks, sync.threads());
    match sync.release(thread, lock, to) {
        Ok(()) => Ok(Effect {
            value: None,
            event: Event::Release(lock),
            woken: to,
        }),
        Err(reason) => Err(Fault::Undefined(reason)),
    }
}
