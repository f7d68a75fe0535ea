//! How the threads of a machine stand.
ghost use Rattle.std.specs.Prelude.{◌≡◌, IfOk, map};
ghost use Rattle.std.specs.List.{range_with_len};
ghost use Rattle.mr_replay.specs.Told.{rest_of, rests_of};

use crate::standing::{stand_of, status_of};
use mr_labels::Rest;
use mr_step::Machine;
use std::alloc::{AllocError, Global};

// How a thread stands.
fn rest_of(machine: &Machine<'_>, thread: u32) -> Rest
    ensures { result ≡ rest_of machine.now.config thread }
{
    Rest {
        stand: stand_of(machine, thread),
        status: status_of(machine, thread),
    }
}

// How so many threads stand, from thread 0 on.
fn first_rests(alloc: Global, machine: &Machine<'_>, count: u32) -> Result<Vec<Rest>, AllocError>
    ensures { IfOk result
        (λ rests. rests.items ≡ map (rest_of machine.now.config) (range_with_len 0 count)) }
{
    let mut rests = Vec::new(alloc);
    for thread in 0..count {
        rests.push(rest_of(machine, thread))?;
    }
    Ok(rests)
}

/// How the threads stand, in order; none is told behind a step that itself stopped. An `Err` is for want of memory.
pub fn rests(alloc: Global, machine: &Machine<'_>) -> Result<Vec<Rest>, AllocError>
    ensures { IfOk result (λ rests. rests.items ≡ rests_of machine.now.config) }
{
    first_rests(alloc, machine, machine.threads())
}
