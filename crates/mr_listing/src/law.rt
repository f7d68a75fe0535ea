//! The laws of races by pairs of places.
ghost use Rattle.std.specs.Prelude.{◌≡◌, length};
ghost use Rattle.std.specs.List.{Contains, filter};
ghost use Rattle.std.specs.List.Sorted.{IsPermutation};
ghost use Rattle.mr_event.specs.declared.footprint.Pair.{Pair};
ghost use Rattle.mr_listing.specs.Races.{groups, is_in_group, ranked};
ghost use Rattle.mr_listing.specs.Seen.{Seen};

/// A law: the order in which the pairs of places are written is a permutation of them, and each race that is shown is of
/// the places of exactly one.
pub fn races_are_grouped()
    ensures order { (s : Seen) → IsPermutation (groups s) (ranked s) }
    ensures once { (s : Seen) (pair : Pair) → Contains s.races pair
        → length (filter (is_in_group s pair) (groups s)) ≡ 1 }
{}
