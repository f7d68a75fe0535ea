//! Laws of Rust's order.

ghost use Rattle.std.specs.Prelude.{◌≡◌, ℕ, ◌<◌, ◌↔◌, IsTrue, List};
ghost use Rattle.mr_event.specs.Footprint.{Footprint};
ghost use Rattle.mr_event.specs.declared.footprint.Pair.{Pair};
ghost use Rattle.mr_event.specs.Order.{HappensBefore as MachineBefore};
ghost use Rattle.mr_event.specs.Predicted.{predicted};
ghost use Rattle.mr_rust_order.specs.Plain.{IsPlain};
ghost use Rattle.mr_rust_order.specs.Order.{AreRaces, Edge, HappensBefore, IsInSequence, IsRace, IsReadBy};
ghost use Rattle.mr_rust_order.specs.Tests.{happens_before, has_edge, has_race, rust_races};

/// A step of a release sequence passes its order on: who reads it comes behind the step that begins the sequence. No
/// step happens before an earlier one or itself.
pub fn sequences_pass_on()
    ensures passed { (run : List Footprint) (byte i other u j : ℕ) → IsInSequence run byte i u → IsReadBy run u j other
        → HappensBefore run i j }
    ensures forward { (run : List Footprint) (i j : ℕ) → HappensBefore run i j → i < j }
{}

/// The tests decide what comes right before what, what happens before what, and the races.
pub fn decided()
    ensures edges { (run : List Footprint) (i j : ℕ) → IsTrue (has_edge run i j) ↔ Edge run i j }
    ensures before { (run : List Footprint) (i j : ℕ) → IsTrue (happens_before run i j) ↔ HappensBefore run i j }
    ensures race { (run : List Footprint) (i j : ℕ) → IsTrue (has_race run i j) ↔ IsRace run i j }
{}

/// The list that is defined is that of the races of a run, and no two lists are.
pub fn one_list()
    ensures list { (run : List Footprint) → AreRaces run (rust_races run) }
    ensures only { (run : List Footprint) (pairs others : List Pair) → AreRaces run pairs → AreRaces run others
        → pairs ≡ others }
{}

/// In a run of plain accesses Rust's order is the machine's, and the races are those that the machine's order lists.
pub fn plain_runs_agree()
    ensures order { (run : List Footprint) → IsPlain run → (i j : ℕ) → MachineBefore run i j ↔ HappensBefore run i j }
    ensures races { (run : List Footprint) → IsPlain run → AreRaces run (predicted run) }
{}
