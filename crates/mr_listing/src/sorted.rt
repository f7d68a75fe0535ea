//! The races in the order of their places.
ghost use Rattle.std.specs.Prelude.{◌≡◌, IfOk, count_by, nat_le, nat_lt, not, option_copied, slice_get};
ghost use Rattle.std.specs.List.{filter};
ghost use Rattle.std.specs.List.Sorted.{IsNonDecreasingBy};
ghost use Rattle.std.specs.Ordering.{ordering_index};
ghost use Rattle.mr_listing.specs.Races.{before_of, same_places};
ghost use Rattle.mr_listing.specs.Seen.{seen};
ghost use Rattle.mr_listing.specs.Sorted.{AreByPlaces, begins_before, is_alike, place_index, places_cmp};
ghost use Rattle.mr_listing.specs.Sorted.{spot_cmp, stand_cmp, with_numbers};

use crate::OutOfMemory;
use crate::shown::Shown;
use mr_event::Pair;
use mr_labels::Stand;
use std::alloc::Global;
use std::cmp::Ordering;

/// A race, and its number among the races.
#[derive(Clone, Copy)]
pub struct Numbered {
    pub pair: Pair,
    pub number: usize,
}

// Where the thread of a step stood before it, where there is such a step.
fn before_step(stand: Option<&Option<Stand>>) -> Option<Stand>
    ensures { result ≡ before_of (option_copied stand.entry) }
{
    match stand {
        Some(stand) => *stand,
        None => None,
    }
}

/// The same of the step of this number.
pub fn before_of(shown: &Shown<'_>, number: usize) -> Option<Stand>
    ensures { result ≡ before_of (slice_get (seen shown.now).stands number) }
{
    before_step(shown.stands.get(number))
}

// How one statement lies to another.
fn compare_spots(a: Stand, b: Stand) -> Ordering
    ensures { result ≡ spot_cmp a b }
{
    let function = a.function.cmp(&b.function);
    let block = a.block.cmp(&b.block);
    let at = a.at.cmp(&b.at);
    function.then(block).then(at)
}

// How one place lies to another; nowhere lies before all.
fn compare_stands(a: Option<Stand>, b: Option<Stand>) -> Ordering
    ensures { result ≡ stand_cmp a b }
{
    match (a, b) {
        (None, None) => Ordering::Equal,
        (None, Some(_)) => Ordering::Less,
        (Some(_), None) => Ordering::Greater,
        (Some(a), Some(b)) => compare_spots(a, b),
    }
}

// How the places of one race lie to those of another.
fn compare_places(shown: &Shown<'_>, a: Pair, b: Pair) -> Ordering
    ensures { result ≡ places_cmp (seen shown.now) a b }
{
    let first = compare_stands(before_of(shown, a.first), before_of(shown, b.first));
    let second = compare_stands(before_of(shown, a.second), before_of(shown, b.second));
    first.then(second)
}

/// Whether two races are of the same two places.
pub(crate) fn are_alike(shown: &Shown<'_>, a: Pair, b: Pair) -> bool
    ensures { result ≡ same_places (seen shown.now) a b }
{
    compare_places(shown, a, b).is_eq()
}

// Whether those of one race lie before those of another.
fn lies_before(shown: &Shown<'_>, a: Pair, b: Pair) -> bool
    ensures { result ≡ nat_lt (ordering_index (places_cmp (seen shown.now) a b)) 1 }
{
    match compare_places(shown, a, b) {
        Ordering::Less => true,
        Ordering::Equal | Ordering::Greater => false,
    }
}

// Whether they don't lie behind them.
fn lies_up_to(shown: &Shown<'_>, a: Pair, b: Pair) -> bool
    ensures { result ≡ nat_le (ordering_index (places_cmp (seen shown.now) a b)) 1 }
{
    match compare_places(shown, a, b) {
        Ordering::Less | Ordering::Equal => true,
        Ordering::Greater => false,
    }
}

// The races with their numbers.
fn with_numbers(alloc: Global, races: &[Pair]) -> Result<Vec<Numbered>, OutOfMemory>
    ensures { IfOk result (λ all. all.items ≡ with_numbers 0 races.now) }
{
    let mut all = Vec::new(alloc);
    for pair in races {
        let number = all.len();
        all.push(Numbered {
            pair: *pair,
            number,
        })?;
    }
    Ok(all)
}

/// The races by their places; those of the same places stand in the order of the races. An `Err` is for want of memory.
pub fn by_places(alloc: Global, shown: &Shown<'_>) -> Result<Vec<Numbered>, OutOfMemory>
    ensures { IfOk result (λ sorted. AreByPlaces (seen shown.now) sorted.items) }
{
    let mut sorted = with_numbers(alloc, shown.races)?;
    sorted.sort_by(|a, b| compare_places(shown, a.pair, b.pair))?;
    Ok(sorted)
}

// Those at the places of a race and behind them.
fn from_places<'a>(shown: &Shown<'_>, sorted: &'a [Numbered], pair: Pair) -> &'a [Numbered]
    requires { IsNonDecreasingBy (place_index (seen shown.now) pair) sorted.now }
    ensures { result.now ≡ filter (λ n. not (nat_lt (place_index (seen shown.now) pair n) 1)) sorted.now }
{
    let first = sorted.partition_point(
        |other: &Numbered| -> bool
            ensures { result ≡ nat_lt (place_index (seen shown.entry.now) pair other.now) 1 }
        { lies_before(shown, other.pair, pair) },
    );
    &sorted[first..]
}

// Those at the places of a race and before them.
fn up_to_places<'a>(shown: &Shown<'_>, sorted: &'a [Numbered], pair: Pair) -> &'a [Numbered]
    requires { IsNonDecreasingBy (place_index (seen shown.now) pair) sorted.now }
    ensures { result.now ≡ filter (λ n. nat_le (place_index (seen shown.now) pair n) 1) sorted.now }
{
    let end = sorted.partition_point(
        |other: &Numbered| -> bool
            ensures { result ≡ nat_le (place_index (seen shown.entry.now) pair other.now) 1 }
        { lies_up_to(shown, other.pair, pair) },
    );
    &sorted[..end]
}

/// The races of the places of a race, in their order.
pub(crate) fn alike_races<'a>(
    shown: &Shown<'_>,
    sorted: &'a [Numbered],
    pair: Pair,
) -> &'a [Numbered]
    requires { AreByPlaces (seen shown.now) sorted.now }
    ensures { result.now ≡ filter (is_alike (seen shown.now) pair) (with_numbers 0 (seen shown.now).races) }
{
    up_to_places(shown, from_places(shown, sorted, pair), pair)
}

/// How many races are of the places of a race.
pub fn count_at(shown: &Shown<'_>, sorted: &[Numbered], pair: Pair) -> usize
    requires { AreByPlaces (seen shown.now) sorted.now }
    ensures { result ≡ count_by (same_places (seen shown.now) pair) (seen shown.now).races }
{
    let alike = alike_races(shown, sorted, pair);
    alike.len()
}

/// Whether there is a first of these races, and it has a lower number.
pub(crate) fn begins_before(races: &[Numbered], number: usize) -> bool
    ensures { result ≡ begins_before number (slice_get races.now 0) }
{
    match races.first() {
        Some(first) => first.number < number,
        None => false,
    }
}
