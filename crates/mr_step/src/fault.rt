//! What an entry comes to.
ghost use Rattle.std.specs.Prelude.{◌≡◌, None};
ghost use Rattle.mr_sched.specs.Rules.{code_of};
ghost use Rattle.mr_step.specs.First.{unmade_by};

use mr_base::{AllocId, Verdict};
use mr_sched::ScheduleRule;
use mr_turn::{PickFailure, StartFault};
use std::alloc::{AllocError, AllocFailed};

/// Why a start or a step was refused.
#[derive(Clone, Copy, Debug, PartialEq, Eq)]
pub enum StepFault {
    /// The start line or the entry breaks the rule with this code (60 to 68). For 64 `earlier` is the allocation whose range is overlapped,
    /// the least by thread and then by count.
    BadEntry { code: u8, earlier: Option<AllocId> },
    /// Memory ran out. The machine has failed.
    Memory,
    /// An earlier step ran out of memory.
    Failed,
}

impl From<AllocError> for StepFault {
    ghost use Rattle.std.specs.Prelude.{◌≡◌};
    ghost use Rattle.mr_step.specs.declared.fault.StepFault.TheVariants.{Memory};

    ghost from_gives = { λ _ e. e ≡ Memory };

    fn from(_: AllocError) -> Self {
        StepFault::Memory
    }
}

impl<T: Drop> From<AllocFailed<T>> for StepFault {
    ghost use Rattle.std.specs.Prelude.{◌≡◌};
    ghost use Rattle.mr_step.specs.declared.fault.StepFault.TheVariants.{Memory};

    ghost from_gives = { λ _ e. e ≡ Memory };

    fn from(_: AllocFailed<T>) -> Self {
        StepFault::Memory
    }
}

/// A refusal by a rule without an identity.
pub fn broken(rule: ScheduleRule) -> StepFault
    ensures { result ≡ StepFault.BadEntry (code_of rule) None }
{
    StepFault::BadEntry {
        code: rule.code(),
        earlier: None,
    }
}

/// A refusal by a rule that the picks break.
pub fn refused(failure: PickFailure) -> StepFault
    ensures { result ≡ StepFault.BadEntry failure.code failure.earlier }
{
    StepFault::BadEntry {
        code: failure.code,
        earlier: failure.earlier,
    }
}

/// Why there is no machine.
pub fn unmade(fault: StartFault) -> StepFault
    ensures { result ≡ unmade_by fault }
{
    match fault {
        StartFault::Broken(failure) => refused(failure),
        StartFault::Memory => StepFault::Memory,
    }
}

/// How a step went: the machine goes on, or has stopped.
#[derive(Clone, Copy, Debug, PartialEq, Eq)]
pub enum Turn {
    Went,
    Stopped(Verdict),
}

impl Turn {
    ghost use Rattle.std.specs.Prelude.{◌≡◌};
    ghost use Rattle.mr_step.specs.Answers.{turn_of};

    /// How a step with this verdict went.
    pub fn behind(verdict: Verdict) -> Turn
        ensures { result ≡ turn_of verdict }
    {
        match verdict {
            Verdict::Running => Turn::Went,
            _ => Turn::Stopped(verdict),
        }
    }
}
