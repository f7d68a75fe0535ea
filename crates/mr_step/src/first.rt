//! Where a machine stands before the first entry.
ghost use Rattle.std.specs.Prelude.{◌≡◌, IfOk};
ghost use Rattle.mr_step.specs.First.{first_config};
ghost use Rattle.mr_step.specs.Kept.{config_of};

use crate::progress::{Progress, Thread};
use mr_base::Verdict;
use mr_eval::Scene;
use mr_frame::Stack;
use mr_mem::Memory;
use mr_sync::SyncTable;
use std::alloc::{AllocError, Global};

/// Thread 0 alone, with this stack, which has made so many allocations.
pub fn first(
    alloc: Global,
    memory: Memory,
    stack: Stack,
    count: u64,
) -> Result<Progress, AllocError>
    ensures { IfOk result (λ p. config_of p ≡ first_config memory stack count) }
{
    let mut threads = Vec::new(alloc);
    threads.push(Thread {
        stack,
        ended: false,
        count,
    })?;
    Ok(Progress {
        scene: Scene::new(alloc, memory, 0, count),
        threads,
        sync: SyncTable::new(alloc)?,
        gone: false,
        output: Vec::new(alloc),
        last: None,
        completed: 0,
        verdict: Verdict::Running,
        about: None,
    })
}
