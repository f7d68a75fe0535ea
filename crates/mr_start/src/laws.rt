//! Laws of runs and schedules, for the layers above.
ghost use Rattle.std.specs.Prelude.{◌≡◌, ℕ, ◌+◌, ◌≤◌, ◌↔◌, List, None, length};
ghost use Rattle.mr_ast.specs.declared.program.Program.{Program};
ghost use Rattle.mr_sched.specs.declared.schedule.Entry.{Entry};
ghost use Rattle.mr_sched.specs.declared.schedule.Schedule.{Schedule};
ghost use Rattle.mr_typing.specs.Walk.{WellFormed};
ghost use Rattle.mr_frame.specs.PlanRuns.{Config};
ghost use Rattle.mr_frame.specs.Frames.{Look};
ghost use Rattle.mr_start.specs.Steps.{Own};
ghost use Rattle.mr_start.specs.Runs.{IsSoundRun, Legal, program_step, run_of, schedule_fault, steps_of};
ghost use Rattle.mr_start.specs.Start.{IsWholeStart, start_fault};

/// A law: no step of a well-formed program under a legal schedule is ill-formed.
pub fn never_ill_formed()
    ensures { (p : Program) (w : Schedule) → WellFormed p → Legal p w → IsSoundRun p w }
{}

/// A law: a schedule is legal exactly where there is no rule that it breaks first.
pub fn legal_schedules()
    ensures { (p : Program) (w : Schedule) → (schedule_fault p w ≡ None) ↔ Legal p w }
{}

/// A law: an entry completes one step at most.
pub fn one_at_most()
    ensures { (look : Look) (c : Config Own) (e : Entry) → (program_step look c e).completed ≤ c.completed + 1 }
{}

/// A law: a run has one footprint for each step that it completes.
pub fn feet_counted()
    ensures { (p : Program) (w : Schedule) → length (steps_of p w) ≡ (run_of p w).completed }
{}

/// A law: behind a legal start line the bytes of each global can be stored.
pub fn whole_start()
    ensures { (p : Program) (picks : List ℕ) → start_fault p picks ≡ None → IsWholeStart p picks }
{}
