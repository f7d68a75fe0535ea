//! Schedules of one thread.
ghost use Rattle.std.specs.Prelude.{◌≡◌, ◌==◌};
ghost use Rattle.mr_run.specs.Runs.{are_of_first};

use mr_sched::Entry;

/// Whether all entries of a schedule are of thread 0.
pub fn is_of_first(entries: &[Entry]) -> bool
    ensures { result ≡ are_of_first entries.now }
{
    entries.iter().all(|entry| entry.thread == 0)
}
