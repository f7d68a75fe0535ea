//! Laws of the order of steps and of its races.

ghost use Rattle.std.specs.Prelude.{◌≡◌, ℕ, ◌↔◌, IsTrue, List};
ghost use Rattle.mr_event.specs.Footprint.{Footprint};
ghost use Rattle.mr_event.specs.declared.footprint.Pair.{Pair};
ghost use Rattle.mr_event.specs.Footprints.{depends};
ghost use Rattle.mr_event.specs.Order.{step_at, Edge, Races, HappensBefore, RacePair, IsPredicted};
ghost use Rattle.mr_event.specs.Predicted.{has_edge, happens_before, race_pair, predicted};

/// The tests decide the edges, the order and the race pairs.
pub fn decided()
    ensures edges { (run : List Footprint) (i j : ℕ) → IsTrue (has_edge run i j) ↔ Edge run i j }
    ensures before { (run : List Footprint) (i j : ℕ) → IsTrue (happens_before run i j) ↔ HappensBefore run i j }
    ensures pair { (run : List Footprint) (i j : ℕ) → IsTrue (race_pair run i j) ↔ RacePair run i j }
{}

/// The predicted races are each step that has a partner with its greatest one, by rising second step, and no other list
/// is.
pub fn predicted_lists()
    ensures lists { (run : List Footprint) → IsPredicted run (predicted run) }
    ensures only { (run : List Footprint) (pairs : List Pair) → IsPredicted run pairs → pairs ≡ predicted run }
{}

/// A step that races with an earlier one depends on it.
pub fn racing_steps_depend()
    ensures { (run : List Footprint) (i j : ℕ) → Races run i j → IsTrue (depends (step_at run i) (step_at run j)) }
{}
