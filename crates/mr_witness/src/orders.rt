//! Laws of runs in another order.

ghost use Rattle.std.specs.Prelude.{◌≡◌, ℕ, [], List};
ghost use Rattle.mr_ast.specs.declared.program.Program.{Program};
ghost use Rattle.mr_event.specs.Order.{IsRearrangement};
ghost use Rattle.mr_event.specs.Predicted.{predicted};
ghost use Rattle.mr_sched.specs.declared.schedule.Schedule.{Schedule};
ghost use Rattle.mr_exchange.specs.StartRuns.{Legal, steps_of};
ghost use Rattle.mr_witness.specs.TypingWalk.{WellFormed};
ghost use Rattle.mr_witness.specs.EveryOrder.{ComesToTheSame, reordered};

/// A law: where no race is listed of a legal run, the schedule in every rearranged order comes to the same.
pub fn every_order()
    ensures { (p : Program) (w : Schedule) → WellFormed p → Legal p w → predicted (steps_of p w) ≡ [] → (order : List ℕ)
        → IsRearrangement (steps_of p w) order → ComesToTheSame p w order (reordered (steps_of p w) w order) }
{}
