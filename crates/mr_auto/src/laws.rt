//! Laws of drawn schedules.
ghost use Rattle.std.specs.Prelude.{ℕ};
ghost use Rattle.mr_ast.specs.declared.program.Program.{Program};
ghost use Rattle.mr_typing.specs.Walk.{WellFormed};
ghost use Rattle.mr_start.specs.Runs.{Legal};
ghost use Rattle.mr_auto.specs.Drawing.{drawn_schedule};

/// A law: the schedule that is drawn for a well-formed program is legal.
pub fn drawn_schedules_are_legal()
    ensures { (p : Program) (number most : ℕ) → WellFormed p → Legal p (drawn_schedule p number most) }
{}
