//! The laws of races by two orders.
ghost use Rattle.std.specs.Prelude.{◌≡◌, ◌⊎◌, ℕ, ◌≤◌, List, IfSome, Some, length};
ghost use Rattle.std.specs.List.{Contains, filter};
ghost use Rattle.mr_event.specs.Footprint.{Footprint};
ghost use Rattle.mr_event.specs.declared.footprint.Pair.{Pair};
ghost use Rattle.mr_event.specs.Order.{Edge, HappensBefore};
ghost use Rattle.mr_event.specs.Predicted.{predicted};
ghost use Rattle.mr_rust_order.specs.Gaps.{first_gap};
ghost use Rattle.mr_rust_order.specs.Order.{HappensBefore as HappensBeforeByRust};
ghost use Rattle.mr_rust_order.specs.Tests.{rust_races};
ghost use Rattle.mr_listing.specs.Races.{is_in_group};
ghost use Rattle.mr_listing.specs.Seen.{Seen};
ghost use Rattle.mr_picture.specs.Way.{way};
ghost use Rattle.mr_two_orders.specs.Pairs.{IsUnlisted};
ghost use Rattle.mr_two_orders.specs.Texts.{told_groups};

/// A law: a race of Rust's order that the machine's list has neither itself nor with a later first step is in order by
/// the machine's, and the other way round. Where the machine has two steps in order and Rust hasn't, some link of the
/// machine's way is none of Rust's order: it is the one that is told, and is an edge of the machine's order.
pub fn lines_are_true()
    ensures machine { (run : List Footprint) (pair : Pair) → Contains (rust_races run) pair
        → IsUnlisted (predicted run) pair → HappensBefore run pair.first pair.second }
    ensures rust { (run : List Footprint) (pair : Pair) → Contains (predicted run) pair
        → IsUnlisted (rust_races run) pair → HappensBeforeByRust run pair.first pair.second }
    ensures link { (run : List Footprint) (i j : ℕ) → HappensBefore run i j → ¬ HappensBeforeByRust run i j
        → (link : Pair) × (first_gap run i (way run i j) ≡ Some link) × Edge run link.first link.second
        × ¬ HappensBeforeByRust run link.first link.second }
{}

/// A law: each race of either list is of the places of exactly one group that is told.
pub fn each_race_is_told()
    ensures { (s : Seen) (pair : Pair) → Contains (rust_races s.feet) pair ⊎ Contains s.races pair
        → length (filter (is_in_group s pair) (told_groups s)) ≡ 1 }
{}
