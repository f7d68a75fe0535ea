//! Laws of the reasons of steps.
ghost use Rattle.std.specs.Prelude.{◌≢◌, ◌≡◌, ℕ, List, Option};
ghost use Rattle.mr_base.specs.declared.reason.Reason.TheVariants.{DataRace};
ghost use Rattle.mr_base.specs.declared.reason.Verdict.TheVariants.{Undefined};
ghost use Rattle.mr_base.specs.declared.reached.Reached.{Reached};
ghost use Rattle.mr_exchange.specs.PlanMachine.{State, Stops, bare};
ghost use Rattle.mr_exchange.specs.StartFrameFrames.{Look};
ghost use Rattle.mr_exchange.specs.StartSteps.{Own, thread_step};

/// A law: no step itself stops with a data race.
pub fn races_are_of_the_check()
    ensures { (look : Look) (s : State Own) (thread : ℕ) (picks : List ℕ) (about : Option Reached)
        → bare (thread_step look) s thread picks ≢ Stops (Undefined DataRace) about }
{}
