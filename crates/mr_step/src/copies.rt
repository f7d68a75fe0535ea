//! Copies of footprints.
ghost use Rattle.std.specs.Prelude.{◌≡◌, OnOk, Some};
ghost use Rattle.mr_event.specs.Footprint.{Footprint as FootprintOf};

use mr_event::{Footprint, Latest};
use std::alloc::AllocError;

/// A copy of the last footprint takes the place of another, where there is a last one.
pub fn copy_last(last: &Option<Latest>, foot: &mut Footprint) -> Result<(), AllocError>
    ensures { (f : FootprintOf) → last.now ≡ Some f → OnOk result (foot.new ≡ f) }
{
    match last {
        Some(last) => foot.copy_from(last.footprint()),
        None => Ok(()),
    }
}
