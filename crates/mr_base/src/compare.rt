//! Whether accesses conflict or race.
ghost use Rattle.std.specs.Prelude.{◌≡◌};
ghost use Rattle.std.specs.List.{list_any};
ghost use Rattle.mr_base.specs.Accesses.{overlaps, conflicts as conflict_of, races as race_of, some_conflict as has_conflict, some_race as has_race};

use crate::accesses::Accesses;
use crate::{Access, ranges_meet};

// Whether some byte belongs to both, also where one of them reaches past the last address.
fn overlap(a: Access, b: Access) -> bool
    ensures { result ≡ overlaps a b }
{
    ranges_meet(a.addr, a.len, b.addr, b.len)
}

fn conflict(a: Access, b: Access) -> bool
    ensures { result ≡ conflict_of a b }
{
    (a.store || b.store) && overlap(a, b)
}

fn race(a: Access, b: Access) -> bool
    ensures { result ≡ race_of a b }
{
    (!a.atomic || !b.atomic) && conflict(a, b)
}

fn conflicts_with(a: Access, others: &[Access]) -> bool
    ensures { result ≡ list_any (conflict_of a) others.now }
{
    others.iter().any(|b| conflict(a, *b))
}

fn races_with(a: Access, others: &[Access]) -> bool
    ensures { result ≡ list_any (race_of a) others.now }
{
    others.iter().any(|b| race(a, *b))
}

/// Whether some access of the one list overlaps some access of the other, one of the two being a store.
#[tactic(auto, unfolding(crate::specs::Accesses::some_conflict))]
pub fn some_conflict(a: &[Access], b: &[Access]) -> bool
    ensures { result ≡ has_conflict a.now b.now }
{
    a.iter().any(|x| conflicts_with(*x, b))
}

/// Whether some access of the one list overlaps some access of the other, one of the two being a store and one not atomic.
#[tactic(auto, unfolding(crate::specs::Accesses::some_race))]
pub fn some_race(a: &[Access], b: &[Access]) -> bool
    ensures { result ≡ has_race a.now b.now }
{
    a.iter().any(|x| races_with(*x, b))
}

/// [`some_conflict`] of the accesses of two steps.
pub fn conflicts(a: &Accesses, b: &Accesses) -> bool
    ensures { result ≡ has_conflict a.now b.now }
{
    some_conflict(a.as_slice(), b.as_slice())
}

/// [`some_race`] of the accesses of two steps.
pub fn races(a: &Accesses, b: &Accesses) -> bool
    ensures { result ≡ has_race a.now b.now }
{
    some_race(a.as_slice(), b.as_slice())
}
