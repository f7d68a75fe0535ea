//! What a run can show, by kinds.
ghost use Rattle.std.specs.Prelude.{◌≡◌};
ghost use Rattle.std.specs.List.{list_any};
ghost use Rattle.mr_listing.specs.Races.{same_stand};
ghost use Rattle.mr_hunt.specs.Ends.{same_end, verdict_number};

use mr_base::Verdict;
use mr_labels::Stand;

/// What a run shows: its verdict, or a race, by where the threads of its two steps stood.
#[derive(Clone, Copy)]
pub enum End {
    Verdict(Verdict),
    Race {
        first: Option<Stand>,
        second: Option<Stand>,
    },
}

// A number for each verdict.
pub(crate) fn verdict_number(verdict: Verdict) -> u16
    ensures { result ≡ verdict_number verdict }
{
    match verdict {
        Verdict::Running => 0,
        Verdict::Exit => 1,
        Verdict::Leak => 2,
        Verdict::Abort => 3,
        Verdict::Deadlock => 4,
        Verdict::Undefined(reason) => reason.code(),
    }
}

// Whether threads that stand here stand at one place of the program.
fn same_place(a: Stand, b: Stand) -> bool
    ensures { result ≡ same_stand (Some a) (Some b) }
{
    a.function == b.function && (a.block == b.block && a.at == b.at)
}

// Whether two threads stand at one place of the program, or both nowhere.
fn same_stand(a: Option<Stand>, b: Option<Stand>) -> bool
    ensures { result ≡ same_stand a b }
{
    match (a, b) {
        (None, None) => true,
        (None, Some(_)) => false,
        (Some(_), None) => false,
        (Some(a), Some(b)) => same_place(a, b),
    }
}

/// Whether two ends are of one kind.
pub(crate) fn same_end(a: End, b: End) -> bool
    ensures { result ≡ same_end a b }
{
    match (a, b) {
        (End::Verdict(v), End::Verdict(w)) => verdict_number(v) == verdict_number(w),
        (End::Verdict(_), End::Race { .. }) => false,
        (End::Race { .. }, End::Verdict(_)) => false,
        (
            End::Race {
                first: a,
                second: b,
            },
            End::Race {
                first: c,
                second: d,
            },
        ) => same_stand(a, c) && same_stand(b, d),
    }
}

/// Whether one of some ends is of the kind of an end.
pub(crate) fn shows(ends: &[End], end: End) -> bool
    ensures { result ≡ list_any (same_end end) ends.now }
{
    for other in ends {
        if same_end(end, *other) {
            return true;
        }
    }
    false
}
