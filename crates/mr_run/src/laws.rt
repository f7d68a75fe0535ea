//! Laws of runs.
ghost use Rattle.std.specs.Prelude.{◌≡◌, ◌+◌, ◌≤◌, [], length, true};
ghost use Rattle.mr_ast.specs.declared.program.Program.{Program};
ghost use Rattle.mr_event.specs.Predicted.{predicted};
ghost use Rattle.mr_sched.specs.declared.schedule.Schedule.{Schedule};
ghost use Rattle.mr_step.specs.StartRuns.{Legal, steps_of};
ghost use Rattle.mr_run.specs.Runs.{are_of_first};

/// A law: a run of thread 0 alone shows no race, so that who asks for its races needs no footprint.
pub fn one_thread_shows_no_race()
    ensures { (p : Program) (w : Schedule) → are_of_first w.entries ≡ true → predicted (steps_of p w) ≡ [] }
{}

/// A law: a run completes one step for each entry at most, and under a legal schedule one for each but the last at
/// least.
pub fn steps_and_entries()
    ensures most { (p : Program) (w : Schedule) → length (steps_of p w) ≤ length w.entries }
    ensures least { (p : Program) (w : Schedule) → Legal p w → length w.entries ≤ length (steps_of p w) + 1 }
{}
