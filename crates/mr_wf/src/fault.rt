//! Why a program was not checked, and why a walk stops.
use mr_ast::{Program, Rule};
use mr_typing::FormFault;
use std::alloc::{AllocError, AllocFailed};

/// Why a program was not checked.
#[derive(Drop)]
pub enum WfFault {
    /// The first broken rule, and the program as it was.
    Form { fault: FormFault, program: Program },
    /// Memory ran out.
    Memory,
}

/// Why an expression, a statement or a terminator was not judged.
#[derive(Clone, Copy, Debug, PartialEq, Eq)]
pub enum Broken {
    /// The first broken rule.
    Rule(Rule),
    /// Memory ran out.
    Memory,
}

impl From<AllocError> for Broken {
    ghost use Rattle.std.specs.Prelude.{◌≡◌};
    ghost use Rattle.mr_wf.specs.declared.fault.Broken.TheVariants.{Memory};

    ghost from_gives = { λ _ e. e ≡ Memory };

    fn from(_error: AllocError) -> Broken {
        Broken::Memory
    }
}

impl<T: Drop> From<AllocFailed<T>> for Broken {
    ghost use Rattle.std.specs.Prelude.{◌≡◌};
    ghost use Rattle.mr_wf.specs.declared.fault.Broken.TheVariants.{Memory};

    ghost from_gives = { λ _ e. e ≡ Memory };

    fn from(_failed: AllocFailed<T>) -> Broken {
        Broken::Memory
    }
}

/// Why the walk stops.
#[derive(Clone, Copy, Debug, PartialEq, Eq)]
pub enum Stopped {
    At(FormFault),
    Memory,
}
