//! A law of orders, and no code.
ghost use Rattle.std.specs.Prelude.{List};
ghost use Rattle.mr_ast.specs.declared.program.Program.{Program};
ghost use Rattle.mr_typing.specs.Walk.{WellFormed};
ghost use Rattle.mr_start.specs.Runs.{Legal};
ghost use Rattle.mr_fill.specs.declared.order.Turn.{Turn};
ghost use Rattle.mr_fill.specs.Filling.{filled};

/// A law: the schedule that an order becomes for a well-formed program is legal.
pub fn filled_schedules_are_legal()
    ensures { (p : Program) (order : List Turn) → WellFormed p → Legal p (filled p order).schedule }
{}
