//! A law of the races by pairs of places.
ghost use Rattle.std.specs.Prelude.{◌≡◌, List, length};
ghost use Rattle.std.specs.List.{Contains, filter};
ghost use Rattle.mr_event.specs.declared.footprint.Pair.{Pair};
ghost use Rattle.mr_listing.specs.declared.pairs.Group.{Group};
ghost use Rattle.mr_traced.specs.Groups.{AreGroups, both_of, is_at};
ghost use Rattle.mr_traced.specs.Seen.{Seen};

/// A law: each race of a trace is of the places of exactly one group.
pub fn each_race_is_in_one_group()
    ensures { (s : Seen) (groups : List Group) (pair : Pair) → AreGroups s groups → Contains s.races pair
        → length (filter (λ g. is_at s (both_of s g.first) pair) groups) ≡ 1 }
{}
