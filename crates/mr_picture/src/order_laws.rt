//! The laws of what is drawn.
ghost use Rattle.std.specs.Prelude.{◌≡◌, ◌≢◌, ℕ, ◌<◌, ◌≤◌, ◌↔◌, ◌++◌, List, IsPermutation, length, nat_le, true};
ghost use Rattle.std.specs.List.{Contains, filter};
ghost use Rattle.mr_event.specs.Footprint.{Footprint};
ghost use Rattle.mr_event.specs.declared.footprint.Pair.{Pair};
ghost use Rattle.mr_event.specs.Kept.{kept};
ghost use Rattle.mr_event.specs.Order.{Edge, HappensBefore, RacePair, thread_at};
ghost use Rattle.mr_picture.specs.declared.span.Span.{Span};
ghost use Rattle.mr_picture.specs.Arrows.{Joined, arrows};
ghost use Rattle.mr_picture.specs.Span.{holds_race, steps_in};
ghost use Rattle.mr_picture.specs.Way.{IsWay, way};
ghost use Rattle.mr_picture.specs.Witness.{left_out, witness_steps};

/// A law: each arrow is an edge between two steps of the part, which are of two threads, and no step lies between them.
pub fn arrows_are_edges()
    ensures within { (run : List Footprint) (span : Span) (arrow : Pair) → Contains (arrows run span) arrow
        → (span.from ≤ arrow.first) × (arrow.first < arrow.second) × (arrow.second < span.to) }
    ensures edge { (run : List Footprint) (span : Span) (arrow : Pair) → Contains (arrows run span) arrow
        → Edge run arrow.first arrow.second }
    ensures apart { (run : List Footprint) (span : Span) (arrow : Pair) → Contains (arrows run span) arrow
        → thread_at run arrow.first ≢ thread_at run arrow.second }
    ensures needed { (run : List Footprint) (span : Span) (arrow : Pair) → Contains (arrows run span) arrow
        → (k : ℕ) → HappensBefore run arrow.first k → ¬ HappensBefore run k arrow.second }
{}

/// A law: of two steps of a part one happens before the other exactly where a path of lanes and arrows of the part joins
/// them.
pub fn paths_are_the_order()
    ensures { (run : List Footprint) (span : Span) (i j : ℕ) → span.from ≤ i → j < span.to
        → Joined run (arrows run span) i j ↔ HappensBefore run i j }
{}

/// A law: where a step happens before another, the way that is told leads from the one to the other, each step of it by
/// an edge from the one before; and where any way leads to a later step, the one happens before it.
pub fn ways_are_the_order()
    ensures leads { (run : List Footprint) (i j : ℕ) → HappensBefore run i j → IsWay run i j (way run i j) }
    ensures before { (run : List Footprint) (i j : ℕ) (steps : List ℕ) → i < j → IsWay run i j steps
        → HappensBefore run i j }
{}

/// A law: the steps of a witness that are drawn are those of the witness by definition, in its order; and each step of
/// the part is one of them or is left out, once.
pub fn witness_is_kept()
    ensures order { (run : List Footprint) (race : Pair) (from : ℕ) → from ≤ race.first → race.first < race.second
        → witness_steps run race from ≡ filter (nat_le from) (kept run race.first race.second) }
    ensures each { (run : List Footprint) (race : Pair) (span : Span) → RacePair run race.first race.second
        → holds_race span race ≡ true
        → IsPermutation (steps_in span) (witness_steps run race span.from ++ left_out run race span) }
{}
