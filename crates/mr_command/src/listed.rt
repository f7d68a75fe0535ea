//! The races that the bytes of footprints in a file show.
ghost use Rattle.std.specs.Prelude.{◌≡◌, ◌+◌, ◌≤◌, ℕ, List, None, Some, IfOk};
ghost use Rattle.mr_io.specs.Counts.{Rose};
ghost use Rattle.mr_io.specs.Files.{Contents};
ghost use Rattle.mr_trace.specs.Reading.{races_of};
ghost use Rattle.mr_trace.specs.Spelling.{AreBytes};
ghost use Rattle.mr_input.specs.Answer.{told, IsStatus, Tells};
ghost use Rattle.mr_input.specs.Inputs.{IsUnreadFault};
ghost use Rattle.mr_answer.specs.Answers.{listed};
ghost use Rattle.mr_command.specs.Answer.{shown};
ghost use Rattle.mr_command.specs.Answering.{IsAnsweredOverTexts, IsListed, IsListedOf};
ghost use Rattle.mr_command.specs.Command.{OfTrace};
ghost use Rattle.mr_command.specs.Showing.{IsOfBytes};

use mr_answer::listing;
use mr_input::{Refusal, Written};
use mr_io::{FileFault, Files};
use mr_trace::{MAX_BYTES, TOO_LONG, TraceFault, offline};
use std::alloc::Global;

/// The races that the trace in a file shows.
pub fn listed_file<F: Files>(alloc: Global, files: &mut F, trace: &str) -> Result<Written, Refusal>
    ensures same { F.told files.new ≡ F.told files.old }
    ensures reads { F.reads files.new ≤ F.reads files.old + 1 }
    ensures faults { F.faults files.old ≤ F.faults files.new }
    ensures answer { (contents : Contents) → F.told files.old ≡ Some contents
        → IsListed contents trace.now (Rose (F.faults files.old) (F.faults files.new)) result }
    ensures bytes { (contents : Contents) → F.told files.old ≡ Some contents → IsOfBytes (contents trace.now) result }
    ensures status { IfOk result (λ a. IsStatus a.status) }
    ensures texts { F.told files.old ≡ None
        → IsAnsweredOverTexts (OfTrace trace.now) (Rose (F.faults files.old) (F.faults files.new)) result }
    ensures untold { F.told files.old ≡ None → IsUnreadFault result
        → Rose (F.faults files.old) (F.faults files.new) }
{
    read_races(alloc, files, trace)
}

// The same, over some bytes where the files don't tell what they hold.
fn read_races<F: Files>(alloc: Global, files: &mut F, trace: &str) -> Result<Written, Refusal>
    ensures same { F.told files.new ≡ F.told files.old }
    ensures reads { F.reads files.new ≤ F.reads files.old + 1 }
    ensures faults { F.faults files.old ≤ F.faults files.new }
    ensures answer { (contents : Contents) → F.told files.old ≡ Some contents
        → IsListedOf (contents trace.now) (Rose (F.faults files.old) (F.faults files.new)) result }
    ensures bytes { (contents : Contents) → F.told files.old ≡ Some contents → IsOfBytes (contents trace.now) result }
    ensures status { IfOk result (λ a. IsStatus a.status) }
    ensures texts { F.told files.old ≡ None → (bytes : List ℕ)
        × IsListedOf (Some bytes) (Rose (F.faults files.old) (F.faults files.new)) result }
    ensures untold { F.told files.old ≡ None → IsUnreadFault result
        → Rose (F.faults files.old) (F.faults files.new) }
{
    let mut bytes = Vec::new(alloc);
    match files.read(alloc, trace, MAX_BYTES as u64, &mut bytes) {
        Ok(()) => races_shown(alloc, bytes.as_slice()),
        Err(FileFault::Failed) | Err(FileFault::Missing) => Err(Refusal::ReadTrace),
        Err(FileFault::Long) => Err(Refusal::Trace {
            at: 0,
            code: TOO_LONG,
        }),
        Err(FileFault::Memory) => Err(Refusal::Memory),
    }
}

// The races that bytes show.
fn races_shown(alloc: Global, bytes: &[u8]) -> Result<Written, Refusal>
    ensures answer { Tells (told listed (shown (races_of bytes.now))) result }
    ensures bytes { AreBytes bytes.now }
    ensures status { IfOk result (λ a. IsStatus a.status) }
    ensures read { ¬ IsUnreadFault result }
{
    match offline(alloc, bytes) {
        Ok(races) => Ok(listing(alloc, races.as_slice())?),
        Err(TraceFault::Bad { at, code }) => Err(Refusal::Trace { at, code }),
        Err(TraceFault::Memory) => Err(Refusal::Memory),
    }
}
