//! Laws of what runs print.
ghost use Rattle.std.specs.Prelude.{◌≡◌, All, true};
ghost use Rattle.std.specs.List.{list_all};
ghost use Rattle.mr_ast.specs.declared.program.Program.{Program};
ghost use Rattle.mr_sched.specs.declared.schedule.Schedule.{Schedule};
ghost use Rattle.mr_step.specs.PlanRuns.{Printed};
ghost use Rattle.mr_step.specs.StartRuns.{run_of};
ghost use Rattle.mr_report.specs.Json.{is_printed};

/// A law: the texts that a run prints have digits, small letters, `-` and space alone, whatever the program and the
/// schedule are. So the JSON of a report can be made of every run (`mr_report`: `json`).
pub fn prints_are_plain()
    ensures { (p : Program) (w : Schedule)
        → All (λ (l : Printed). list_all is_printed l.text ≡ true) (run_of p w).output }
{}
