//! Why a run was not taken to its end.
ghost use Rattle.std.specs.Prelude.{◌≡◌};
ghost use Rattle.mr_run.specs.Runs.{placed};

use mr_base::AllocId;
use mr_step::StepFault;

/// Why a run was not taken to its end.
#[derive(Clone, Copy, Debug, PartialEq, Eq)]
pub enum RunFault {
    /// The schedule breaks the rule with this code (60 to 68) at this place, and no rule before that: the start has
    /// place 2, and the first entry place 3. For 64 `earlier` is the allocation whose range is overlapped, the least by
    /// thread and then by count.
    Broken {
        place: u32,
        code: u8,
        earlier: Option<AllocId>,
    },
    /// Memory ran out.
    Memory,
}

/// The fault of a start or a step, at its place.
pub fn at_place(place: u32, fault: StepFault) -> RunFault
    ensures { result ≡ placed place fault }
{
    match fault {
        StepFault::BadEntry { code, earlier } => RunFault::Broken {
            place,
            code,
            earlier,
        },
        StepFault::Memory | StepFault::Failed => RunFault::Memory,
    }
}
