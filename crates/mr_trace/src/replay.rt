//! The races of a run, from its bytes alone.
ghost use Rattle.std.specs.Prelude.{◌≡◌, ℕ, List, IfOk};
ghost use Rattle.mr_event.specs.Footprint.{Footprint};
ghost use Rattle.mr_event.specs.declared.footprint.Pair.{Pair};
ghost use Rattle.mr_event.specs.Predicted.{predicted};
ghost use Rattle.mr_trace.specs.Faults.{FirstFault};
ghost use Rattle.mr_trace.specs.Reading.{Answers, races_of, trace_of};
ghost use Rattle.mr_trace.specs.Spelling.{Traces};

use crate::decoding::whole_trace;
use crate::fault::TraceFault;
use mr_clocks::predicted_by_clocks;
use mr_event::Pair;
use std::alloc::Global;

/// The races that the run of the bytes shows, or the first fault of the bytes.
pub fn offline(alloc: Global, bytes: &[u8]) -> Result<Vec<Pair>, TraceFault>
    // What the bytes give, computed.
    ensures exact { Answers (λ v. v.items) result (races_of bytes.now) }

    // What is listed are the races of the run that is spelled so, and those of a run that is spelled so are listed.
    ensures spelled { IfOk result (λ v. (run : List Footprint) × Traces bytes.now run × (v.items ≡ predicted run)) }
    ensures only { (run : List Footprint) → Traces bytes.now run → Answers (λ v. v.items) result (Ok (predicted run)) }

    // The fault is the first, and bytes with a fault have that answer.
    ensures first { (at code : ℕ) →
        (result ≡ Err (TraceFault.Bad at code) → FirstFault bytes.now at code)
        × (FirstFault bytes.now at code
        → Answers {Y = List Pair} (λ v. v.items) result (Err (record { at = at; code = code }))) }
{
    races(alloc, bytes)
}

#[tactic(auto, unfolding(crate::specs::Reading::races_of))]
fn races(alloc: Global, bytes: &[u8]) -> Result<Vec<Pair>, TraceFault>
    ensures { Answers (λ v. v.items) result (races_of bytes.now) }
{
    let run = whole_trace(alloc, bytes)?;
    let pairs = predicted_by_clocks(alloc, run.as_slice())?;
    Ok(pairs)
}
