//! The threads among which one is drawn.
ghost use Rattle.std.specs.Prelude.{◌≡◌, IfOk, Some, true};
ghost use Rattle.mr_run.specs.StepPlanMachine.{State};
ghost use Rattle.mr_start.specs.Steps.{Own};
ghost use Rattle.mr_auto.specs.Drawing.{enabled_in, waiting_in};

use mr_run::Machine;
use std::alloc::{AllocError, Global};

/// The threads that can go on, by rising number.
pub fn enabled_threads(alloc: Global, machine: &Machine<'_>) -> Result<Vec<u32>, AllocError>
    requires { (s : State Own) × (machine.now.config.state ≡ Some s) }
    ensures { IfOk result (λ threads. (s : State Own) → machine.now.config.state ≡ Some s
        → threads.items ≡ enabled_in s.shared.statuses) }
{
    let mut threads = Vec::new(alloc);
    for t in 0..machine.threads() {
        if machine.enabled(t) {
            threads.push(t)?;
        }
    }
    Ok(threads)
}

/// The threads that wait for a lock, by rising number.
pub fn waiting_threads(
    alloc: Global,
    machine: &Machine<'_>,
    lock: u32,
) -> Result<Vec<u32>, AllocError>
    requires { (s : State Own) × (machine.now.config.state ≡ Some s) }
    ensures { IfOk result (λ threads. (s : State Own) → machine.now.config.state ≡ Some s
        → threads.items ≡ waiting_in lock s.shared.statuses) }
{
    let mut threads = Vec::new(alloc);
    for t in 0..machine.threads() {
        if machine.waiting(lock, t) {
            threads.push(t)?;
        }
    }
    Ok(threads)
}
