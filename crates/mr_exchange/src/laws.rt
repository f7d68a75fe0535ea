//! The laws of runs.

ghost use Rattle.std.specs.Prelude.{◌≡◌, ℕ, ◌+◌, ◌∷◌, ◌++◌, [], All, List, None, Some, length};
ghost use Rattle.mr_ast.specs.declared.program.Program.{Program};
ghost use Rattle.mr_event.specs.FootOk.{IsFootOk};
ghost use Rattle.mr_exchange.specs.Trace.{AreIndependent};
ghost use Rattle.mr_sched.specs.declared.schedule.Entry.{Entry};
ghost use Rattle.mr_sched.specs.declared.schedule.Schedule.{Schedule};
ghost use Rattle.mr_start.specs.TypingWalk.{WellFormed};
ghost use Rattle.mr_exchange.specs.PlanMachine.{State};
ghost use Rattle.mr_start.specs.FrameFrames.{Look};
ghost use Rattle.mr_start.specs.SoundState.{SoundState};
ghost use Rattle.mr_start.specs.Steps.{Own, thread_step};
ghost use Rattle.mr_start.specs.Runs.{Legal, steps_of};
ghost use Rattle.mr_start.specs.Start.{look_of, start_config, start_fault};
ghost use Rattle.mr_exchange.specs.Limits.{LimitLaw};
ghost use Rattle.mr_exchange.specs.Swap.{IsSane, SwapLaw};
ghost use Rattle.mr_exchange.specs.Counted.{LastStops};
ghost use Rattle.mr_exchange.specs.Exchange.{Done, Leads};

/// A law: of two neighbouring steps that are independent the entries may be exchanged, at each state that is sound, and in
/// each legal run of a well-formed program.
pub fn swap()
    ensures states { (look : Look) → SwapLaw (thread_step look) }
    ensures sound { (p : Program) (s : State Own) → SoundState p s → IsSane s }
    ensures runs { (p : Program) (picks : List ℕ) (s t : State Own) (front : List Entry)
        (e f : Entry) (before : List Done) (a b : Done)
        → WellFormed p → start_fault p picks ≡ None → (start_config p picks).state ≡ Some s
        → length front ≡ length before → AreIndependent a.foot b.foot
        → Leads (look_of p picks) s (front ++ e ∷ f ∷ []) (before ++ a ∷ b ∷ []) t
        → Leads (look_of p picks) s (front ++ f ∷ e ∷ []) (before ++ b ∷ a ∷ []) t }
{}

/// A law: the footprint of a completed step keeps the machine's limits, at each state that is sane and keeps its own, and behind it the
/// next state keeps them; so each footprint of a legal run of a well-formed program keeps them.
pub fn limits()
    ensures states { (look : Look) → LimitLaw (thread_step look) }
    ensures runs { (p : Program) (w : Schedule) → WellFormed p → Legal p w → All IsFootOk (steps_of p w) }
{}

/// A law: a legal run of a well-formed program has a footprint for each entry, or one fewer exactly where the last entry itself stops.
pub fn counts()
    ensures each { (p : Program) (w : Schedule) → WellFormed p → Legal p w → ¬ LastStops p w
        → length (steps_of p w) ≡ length w.entries }
    ensures fewer { (p : Program) (w : Schedule) → WellFormed p → Legal p w → LastStops p w
        → length (steps_of p w) + 1 ≡ length w.entries }
{}
