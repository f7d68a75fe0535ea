//! Runs in another order, of every machine whose independent neighbours may be exchanged: laws over
//! `specs/Trace.antt` and `specs/Shown.antt`, and no other code.

ghost use Rattle.std.specs.Prelude.{◌≡◌, ◌∷◌, ◌++◌, [], ℕ, ◌+◌, ◌<◌, List, Bool, map, length, not, ◌&&◌, ◌==◌, filter};
ghost use Rattle.std.specs.Prelude.{Contains};
ghost use Rattle.mr_event.specs.Footprint.{Footprint};
ghost use Rattle.mr_event.specs.declared.footprint.Pair.{Pair};
ghost use Rattle.mr_event.specs.Kept.{selected};
ghost use Rattle.mr_event.specs.Order.{HasNoRace, IsGreatestPartner, IsRearrangement, places, step_at};
ghost use Rattle.mr_event.specs.Predicted.{happens_before, predicted};
ghost use Rattle.mr_exchange.specs.Shown.{AreAdjacent, steps_of};
ghost use Rattle.mr_exchange.specs.Trace.{IsAmong, IsFirstPair, IsPlacing, IsReported, Selects, short_keeps};

/// A predicted race is a step of the run with its greatest partner, the head of the predicted races is the first pair,
/// which is such a race, and where none is predicted no step has a partner.
pub fn first_of_predicted()
    ensures partner { (run : List Footprint) (pair : Pair) → Contains (predicted run) pair
        → IsGreatestPartner run pair.first pair.second }
    ensures first { (run : List Footprint) (pair : Pair) (rest : List Pair) → predicted run ≡ pair ∷ rest
        → IsFirstPair run pair.first pair.second }
    ensures none { (run : List Footprint) → predicted run ≡ [] → HasNoRace run }
{}

/// For each predicted race both witnesses are choices of steps that can be run without the others, with the pair at
/// their end.
pub fn witness_choices()
    ensures kept { (run : List Footprint) (i j : ℕ) → IsGreatestPartner run i j
        → Selects run i j (λ k. not (happens_before run i k)) }
    ensures short { (run : List Footprint) (i j : ℕ) → IsGreatestPartner run i j
        → Selects run i j (short_keeps run i j) }
{}

/// In the order of a choice no step but the last is reported behind its neighbour, the last is, and each thread takes the
/// first of its recorded steps in recorded order.
pub fn calm_before_the_pair()
    ensures calm { (run : List Footprint) (i j : ℕ) (keep : ℕ → Bool) → IsFirstPair run i j → Selects run i j keep
        → AreAdjacent (λ x y. ¬ IsReported run x y) (filter (λ k. keep k && not (k == i)) (places j) ++ i ∷ []) }
    ensures reported { (run : List Footprint) (i j : ℕ) → IsFirstPair run i j → IsReported run i j }
    ensures prefix { (run : List Footprint) (i j : ℕ) (keep : ℕ → Bool) (thread : ℕ) → IsFirstPair run i j
        → Selects run i j keep
        → (rest : List ℕ) ×
        (steps_of run thread (selected keep i j) ++ rest ≡ steps_of run thread (places (length run))) }
{}

/// A rearrangement of a run without a race pair has none, and no step of such a run is reported behind its neighbour.
pub fn rearranged_has_none()
    ensures none { (run : List Footprint) (order : List ℕ) → IsRearrangement run order → HasNoRace run
        → HasNoRace (map (step_at run) order) }
    ensures calm { (run : List Footprint) (k : ℕ) → HasNoRace run → k + 1 < length run → ¬ IsReported run k (k + 1) }
{}

/// An order that places each step of a run, each behind all that happen before it, is a rearrangement.
pub fn placed_is_rearranged()
    ensures { (run : List Footprint) (order : List ℕ) → IsPlacing run [] order
        → ((k : ℕ) → k < length run → IsAmong k order) → IsRearrangement run order }
{}
