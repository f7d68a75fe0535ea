//! Why a pick or an operation on memory is refused.

use mr_base::{AllocId, Reason};
use std::alloc::{AllocError, AllocFailed};

/// Why an address may not be picked for a new allocation.
#[derive(Clone, Copy, Debug, PartialEq, Eq)]
pub enum PickFault {
    /// It is 0, misaligned, or the range passes the address space.
    BadAddress,
    /// The range overlaps that of an earlier allocation, dead or live. This is the least of those, by thread and then by count.
    Reused(AllocId),
}

/// Why what changes memory stops: undefined behaviour, or memory of the host ran out.
#[derive(Clone, Copy, Debug, PartialEq, Eq)]
pub enum Fault {
    Undefined(Reason),
    Memory,
}

impl From<AllocError> for Fault {
    ghost use Rattle.std.specs.Prelude.{◌≡◌};
    ghost use Rattle.mr_mem.specs.declared.fault.Fault.TheVariants.{Memory};

    ghost from_gives = { λ _ e. e ≡ Memory };

    fn from(_: AllocError) -> Self {
        Fault::Memory
    }
}

impl<T: Drop> From<AllocFailed<T>> for Fault {
    ghost use Rattle.std.specs.Prelude.{◌≡◌};
    ghost use Rattle.mr_mem.specs.declared.fault.Fault.TheVariants.{Memory};

    ghost from_gives = { λ _ e. e ≡ Memory };

    fn from(_: AllocFailed<T>) -> Self {
        Fault::Memory
    }
}
