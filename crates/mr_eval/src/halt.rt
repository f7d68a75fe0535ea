//! Why an evaluation stops.
use mr_base::Reason;
use std::alloc::{AllocError, AllocFailed};

/// Why an evaluation stops.
#[derive(Clone, Copy, Debug, PartialEq, Eq)]
pub enum Halt {
    /// It is undefined behaviour.
    Undefined(Reason),
    /// There is no rule. No expression of a well-formed program comes to this.
    IllFormed,
    /// Memory ran out.
    Memory,
}

impl From<AllocError> for Halt {
    ghost use Rattle.std.specs.Prelude.{◌≡◌};
    ghost use Rattle.mr_eval.specs.declared.halt.Halt.TheVariants.{Memory};

    ghost from_gives = { λ _ e. e ≡ Memory };

    fn from(_error: AllocError) -> Halt {
        Halt::Memory
    }
}

impl<T: Drop> From<AllocFailed<T>> for Halt {
    ghost use Rattle.std.specs.Prelude.{◌≡◌};
    ghost use Rattle.mr_eval.specs.declared.halt.Halt.TheVariants.{Memory};

    ghost from_gives = { λ _ e. e ≡ Memory };

    fn from(_failed: AllocFailed<T>) -> Halt {
        Halt::Memory
    }
}
