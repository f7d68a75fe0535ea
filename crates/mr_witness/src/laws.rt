//! Laws of witnesses.

ghost use Rattle.std.specs.Prelude.{◌≡◌, ◌∷◌, List};
ghost use Rattle.mr_ast.specs.declared.program.Program.{Program};
ghost use Rattle.mr_event.specs.declared.footprint.Pair.{Pair};
ghost use Rattle.mr_event.specs.Predicted.{predicted};
ghost use Rattle.mr_sched.specs.declared.schedule.Schedule.{Schedule};
ghost use Rattle.mr_exchange.specs.StartRuns.{Legal, steps_of};
ghost use Rattle.mr_witness.specs.TypingWalk.{WellFormed};
ghost use Rattle.mr_exchange.specs.Witness.{IsWitness, kept_schedule};

/// A law: the kept schedule of the first race of a legal run is a witness for it.
pub fn first_race_has_a_witness()
    ensures { (p : Program) (w : Schedule) → WellFormed p → Legal p w → (pair : Pair) (races : List Pair)
        → predicted (steps_of p w) ≡ pair ∷ races
        → IsWitness p w pair.first pair.second (kept_schedule (steps_of p w) w pair.first pair.second) }
{}
