//! Whether two ranges meet; lists of pairs of numbers: whether a pair stands in one, whether one stands twice in it, and whether
//! two ranges in it meet.
ghost use Rattle.std.specs.Prelude.{◌≡◌, ◌<◌, All};
ghost use Rattle.std.specs.List.{list_any};
ghost use Rattle.std.specs.List.Sorted.{IsSorted};
ghost use Rattle.mr_base.specs.Pairs.{pair_cmp, some_pair, some_next, some_neighbours, same_pair, are_meeting, is_meeting};

/// A pair of numbers; of a range of bytes its start and its length.
pub type Pair = (u128, u128);

/// Whether two ranges of addresses have one in common, also where one of them reaches past the last address. A range of
/// length 0 has none.
pub fn ranges_meet(a: u64, len: u64, b: u64, count: u64) -> bool
    ensures { result ≡ is_meeting a len b count }
{
    len != 0 && count != 0 && (a < b || a - b < count) && (b < a || b - a < len)
}

/// Whether a pair stands twice in a list, which is sorted for it.
pub fn any_twice(pairs: &mut [Pair]) -> bool
    ensures { result ≡ some_pair same_pair pairs.old }
{
    pairs.sort_unstable();
    any_equal_neighbours(pairs)
}

fn any_equal_neighbours(pairs: &[Pair]) -> bool
    ensures { result ≡ some_neighbours same_pair pairs.now }
{
    match pairs {
        [] => false,
        [first, rest @ ..] => any_equal_next(*first, rest),
    }
}

fn any_equal_next(first: Pair, pairs: &[Pair]) -> bool
    ensures { result ≡ some_next same_pair first pairs.now }
{
    let mut last = first;
    for pair in pairs {
        if last.0 == pair.0 && last.1 == pair.1 {
            return true;
        }
        last = *pair;
    }
    false
}

/// Whether a pair stands in a list that is in order.
pub fn is_among(pair: Pair, pairs: &[Pair]) -> bool
    requires { IsSorted pair_cmp pairs.now }
    ensures { result ≡ list_any (same_pair pair) pairs.now }
{
    pairs.binary_search(&pair).is_ok()
}

/// Whether two ranges of a list, none of which is empty, have a byte in common. The list is sorted for it.
pub fn any_meeting(ranges: &mut [Pair]) -> bool
    requires { All (λ r. 0 < r.1) ranges.old }
    ensures { result ≡ some_pair are_meeting ranges.old }
{
    ranges.sort_unstable();
    any_meeting_neighbours(ranges)
}

fn any_meeting_neighbours(ranges: &[Pair]) -> bool
    ensures { result ≡ some_neighbours are_meeting ranges.now }
{
    match ranges {
        [] => false,
        [first, rest @ ..] => any_meeting_next(*first, rest),
    }
}

fn any_meeting_next(first: Pair, ranges: &[Pair]) -> bool
    ensures { result ≡ some_next are_meeting first ranges.now }
{
    let mut last = first;
    for range in ranges {
        if is_meeting(last, *range) {
            return true;
        }
        last = *range;
    }
    false
}

// Whether two ranges have a byte in common: the one that begins last begins before the end of the other.
fn is_meeting(a: Pair, b: Pair) -> bool
    ensures { result ≡ are_meeting a b }
{
    let apart = if a.0 <= b.0 {
        b.0 - a.0 >= a.1
    } else {
        a.0 - b.0 >= b.1
    };
    0 < a.1 && 0 < b.1 && !apart
}
