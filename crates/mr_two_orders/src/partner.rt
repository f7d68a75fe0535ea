//! With which step a list of races has a step.
ghost use Rattle.std.specs.Prelude.{◌≡◌, nat_lt, slice_get};
ghost use Rattle.mr_two_orders.specs.Pairs.{IsRising, either, first_of, has, is_step, partner};

use mr_event::Pair;

// The race at a place of a list.
fn pair_at(pairs: &[Pair], place: usize) -> Option<Pair>
    ensures { result ≡ slice_get pairs.now place }
{
    pairs.get(place).copied()
}

// The first step of a race, where the second is this one.
fn first_of(step: usize, pair: Option<Pair>) -> Option<usize>
    ensures { result ≡ first_of step pair }
{
    match pair {
        None => None,
        Some(pair) => {
            if pair.second == step {
                Some(pair.first)
            } else {
                None
            }
        }
    }
}

/// The step with which a list has a step, if it has it.
pub(crate) fn partner(pairs: &[Pair], step: usize) -> Option<usize>
    requires { IsRising pairs.now }
    ensures { result ≡ partner pairs.now step }
{
    let place = pairs.partition_point(
        |pair: &Pair| -> bool
            ensures { result ≡ nat_lt pair.now.second step }
        { pair.second < step },
    );
    first_of(step, pair_at(pairs, place))
}

// Whether it is this step.
fn is_step(step: usize, other: Option<usize>) -> bool
    ensures { result ≡ is_step step other }
{
    match other {
        None => false,
        Some(other) => other == step,
    }
}

/// Whether a list has a race.
pub(crate) fn has(pairs: &[Pair], pair: Pair) -> bool
    requires { IsRising pairs.now }
    ensures { result ≡ has pairs.now pair }
{
    is_step(pair.first, partner(pairs, pair.second))
}

/// The first list, or the other where that is empty.
pub fn either<'a>(pairs: &'a [Pair], others: &'a [Pair]) -> &'a [Pair]
    ensures { result.now ≡ either pairs.now others.now }
{
    match pairs {
        [] => others,
        [_, ..] => pairs,
    }
}
