//! The heap.
ghost use Rattle.std.specs.Prelude.{◌≡◌, ℕ, [], List, Option, Some, None, IfOk};
ghost use Rattle.mr_ast.specs.declared.program.Intrinsic.TheVariants as intrinsic;
ghost use Rattle.mr_ast.specs.declared.types.Ty.{Ty};
ghost use Rattle.mr_ast.specs.declared.types.Ty.TheVariants as ty;
ghost use Rattle.mr_sync.specs.Tables.{Tables};
ghost use Rattle.mr_intr.specs.Effects.{AreLawful, CanCount, ChangesMemory, CanTake, Fits, FitsPlace};
ghost use Rattle.mr_intr.specs.Heap.{allocation_fault};

use crate::args::{pointer_at, size_at};
use crate::effect::Effect;
use mr_base::{Kind, Reason};
use mr_eval::{Fault, Scene};
use mr_value::Val;

/// Why there can be no allocation of this size and this alignment, in bytes. The size is told before the alignment.
pub fn allocation_fault(size: u64, align: u64) -> Option<Reason>
    ensures { result ≡ allocation_fault size align }
{
    if size > i64::MAX as u64 {
        return Some(Reason::SizeTooLarge);
    }
    if align.is_power_of_two() {
        None
    } else {
        Some(Reason::BadAlign)
    }
}

/// A new allocation at the picked address, and the pointer to it.
pub fn allocate(args: &[Val], s: &mut Scene, picks: &[u64]) -> Result<Effect, Fault>
    requires fits { CanTake intrinsic.Allocate args.now }
    requires lawful { (types : List Ty) × (place : Option Ty) × (x : Tables)
        × AreLawful intrinsic.Allocate args.now types place picks.now s.old x }
    requires count { CanCount s.old }
    ensures done { (types : List Ty) (place : Option Ty)
        → ChangesMemory intrinsic.Allocate result args.now types place picks.now s.old s.new }
    ensures value { IfOk result (λ e. FitsPlace (Some ty.Raw) e.value) }
{
    let size = size_at(args, 0);
    let align = size_at(args, 1);
    match allocation_fault(size, align) {
        Some(reason) => Err(Fault::Undefined(reason)),
        None => {
            let p = s.allocate(Kind::Heap, size, align, picks[0])?;
            Ok(Effect::quiet(Some(Val::Ptr(p))))
        }
    }
}

/// The end of an allocation.
pub fn deallocate(args: &[Val], s: &mut Scene) -> Result<Effect, Fault>
    requires { CanTake intrinsic.Deallocate args.now }
    ensures done { (types : List Ty) (place : Option Ty) (picks : List ℕ)
        → ChangesMemory intrinsic.Deallocate result args.now types place picks s.old s.new }
    ensures value { IfOk result (λ e. FitsPlace None e.value) }
{
    let p = pointer_at(args, 0);
    let size = size_at(args, 1);
    let align = size_at(args, 2);
    match s.free(p, Kind::Heap, size, align) {
        Ok(()) => Ok(Effect::quiet(None)),
        Err(fault) => Err(fault),
    }
}
