//! Storage of a local that is given up or renewed.
ghost use Rattle.mr_eval.specs.Environment.{Tells};
ghost use Rattle.mr_eval.specs.World.{world_of};
ghost use Rattle.mr_frame.specs.Effects.{renewed, unstored};
ghost use Rattle.mr_frame.specs.Standing.{CanRenew};

use crate::slot::Slot;
use mr_base::{Kind, Pointer};
use mr_eval::{Fault, Scene};

/// Frees the storage of a local, where there is some. Size and alignment are in bytes.
pub fn release(s: &mut Scene, storage: Option<Pointer>, size: u64, align: u64) -> Result<(), Fault>
    ensures { Tells result (unstored storage size align (world_of s.old)) (world_of s.new) s.new.notes.refused }
{
    match storage {
        None => Ok(()),
        Some(p) => s.free(p, Kind::Stack, size, align),
    }
}

/// Frees the storage of a local, where there is some, and gives it new storage at a picked address.
#[tactic(auto, using(crate::proofs::StorageLaws::storage_laws))]
pub fn renew(s: &mut Scene, slot: Slot, addr: u64) -> Result<Pointer, Fault>
    requires { CanRenew slot addr s.old }
    ensures { Tells result (renewed slot addr (world_of s.old)) (world_of s.new) s.new.notes.refused }
{
    match release(s, slot.storage, slot.size, slot.align) {
        Err(fault) => Err(fault),
        Ok(()) => Ok(s.allocate(Kind::Stack, slot.size, slot.align, addr)?),
    }
}
