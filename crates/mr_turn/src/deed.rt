//! What a turn did, or why there is none.
use mr_base::{Event, Reason};
use mr_eval::Fault;
use mr_frame::{Flow, Stack};
use mr_start::PickFailure;
use sqlite_items::Boxed;
use std::alloc::{AllocError, AllocFailed};

/// What the turn of a thread did beside what it changed of memory.
#[derive(Drop)]
pub struct Deed {
    /// How the thread goes on.
    pub flow: Flow,
    /// What it did to locks and threads.
    pub event: Event,
    /// The threads that it woke, by rising number.
    pub woken: Vec<u32>,
    /// The stack of the thread that it started.
    pub started: Option<Boxed<Stack>>,
    /// What it printed.
    pub text: Option<Vec<u8>>,
}

/// Why a thread has no turn.
#[derive(Clone, Copy, Debug, PartialEq, Eq)]
pub enum TurnFault {
    /// Its picks break a rule.
    Broken(PickFailure),
    /// The step itself stops for this reason.
    Undefined(Reason),
    /// Memory ran out.
    Memory,
}

impl From<AllocError> for TurnFault {
    ghost use Rattle.std.specs.Prelude.{◌≡◌};
    ghost use Rattle.mr_turn.specs.declared.deed.TurnFault.TheVariants.{Memory};

    ghost from_gives = { λ _ e. e ≡ Memory };

    fn from(_: AllocError) -> Self {
        TurnFault::Memory
    }
}

impl<T: Drop> From<AllocFailed<T>> for TurnFault {
    ghost use Rattle.std.specs.Prelude.{◌≡◌};
    ghost use Rattle.mr_turn.specs.declared.deed.TurnFault.TheVariants.{Memory};

    ghost from_gives = { λ _ e. e ≡ Memory };

    fn from(_: AllocFailed<T>) -> Self {
        TurnFault::Memory
    }
}

impl From<Fault> for TurnFault {
    ghost use Rattle.std.specs.Prelude.{◌≡◌};
    ghost use Rattle.mr_turn.specs.Turning.{fault_from};

    ghost from_gives = { λ f e. e ≡ fault_from f };

    fn from(fault: Fault) -> Self {
        match fault {
            Fault::Undefined(reason) => TurnFault::Undefined(reason),
            Fault::Memory => TurnFault::Memory,
        }
    }
}
