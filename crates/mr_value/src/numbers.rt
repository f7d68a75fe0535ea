//! Numbers of several bytes.
ghost use Rattle.std.specs.Prelude.{◌≡◌, ◌<◌, ◌≤◌, ◌+◌, ◌-◌, ◌*◌, ◌^◌, drop, length, IfSome};
ghost use Rattle.mr_base.specs.Identities.{same_id as is_same_id};
ghost use Rattle.mr_runs.specs.Pieces.{bytes_of_pieces, AreMaximal};
ghost use Rattle.mr_value.specs.Numbers.{part, number_of, pointer_of};
ghost use Rattle.mr_value.specs.Spelled.{initial_number, sharing_behind, shared_in, Spells};

use mr_base::{AllocId, Pointer};
use mr_runs::{Piece, View};

/// What initialised bytes spell.
#[derive(Clone, Copy)]
pub(crate) struct Spelled {
    pub number: u128,
    pub sharing: Sharing,
}

/// Which provenance some bytes share: any where there are none, one, or none as they differ.
#[derive(Clone, Copy)]
pub(crate) enum Sharing {
    Any,
    One(AllocId),
    Differ,
}

// What the pieces of a view spell from the one with the number `n` on, which have `left` bytes, where all are initialised.
fn spelled_from(v: &View<'_>, n: usize, left: u64) -> Option<Spelled>
    requires maximal { AreMaximal v.now }
    requires left { length (bytes_of_pieces (drop n v.now)) ≡ left }
    requires few { left ≤ 16 }
    ensures { Spells (bytes_of_pieces (drop n v.now)) result }
{
    if left == 0 {
        return Some(Spelled {
            number: 0,
            sharing: Sharing::Any,
        });
    }
    let _bytes = v.len();
    match v.piece(n) {
        None => unreachable!(),
        Some(Piece::Uninit(_)) => None,
        Some(Piece::Bytes(numbers, provenance)) => match spelled_from(
            v,
            n + 1,
            left - numbers.len() as u64,
        ) {
            None => None,
            Some(rest) => Some(Spelled {
                number: number_with(numbers, rest.number),
                sharing: sharing_with(provenance, rest.sharing),
            }),
        },
    }
}

// The number whose lowest bytes are the first, and whose others are the rest.
fn number_with(numbers: &[u8], rest: u128) -> u128
    requires few { length numbers.now ≤ 16 }
    requires fits { rest < 2 ^ (8 * (16 - length numbers.now)) }
    ensures { result ≡ initial_number numbers.now rest }
{
    match numbers {
        [] => rest,
        [others @ .., last] => number_with(others, *last as u128 + 256 * rest),
    }
}

// Which provenance bytes share that stand behind some with this one.
fn sharing_with(provenance: Option<AllocId>, rest: Sharing) -> Sharing
    ensures { result ≡ sharing_behind provenance rest }
{
    match (provenance, rest) {
        (None, _) => Sharing::Differ,
        (Some(p), Sharing::Any) => Sharing::One(p),
        (Some(p), Sharing::One(q)) => if is_same(p, q) { rest } else { Sharing::Differ },
        (Some(_), Sharing::Differ) => Sharing::Differ,
    }
}

fn is_same(p: AllocId, q: AllocId) -> bool
    ensures { result ≡ is_same_id p q }
{
    p.thread == q.thread && p.count == q.count
}

fn shared(sharing: Sharing) -> Option<AllocId>
    ensures { result ≡ shared_in sharing }
{
    match sharing {
        Sharing::One(p) => Some(p),
        Sharing::Any | Sharing::Differ => None,
    }
}

/// The number of `len` bytes from an offset on, where all are initialised.
pub(crate) fn number_at(v: &View<'_>, at: u64, len: u64) -> Option<u128>
    requires few { len ≤ 16 }
    requires inside { at + len ≤ length (bytes_of_pieces v.now) }
    ensures value { result ≡ number_of (part at len (bytes_of_pieces v.now)) }
    ensures fits { IfSome result (λ n. n < 2 ^ (8 * len)) }
{
    match spelled_from(&v.part(at, len), 0, len) {
        None => None,
        Some(spelled) => Some(spelled.number),
    }
}

/// The pointer of eight bytes from an offset on, where all are initialised.
pub(crate) fn pointer_at(v: &View<'_>, at: u64) -> Option<Pointer>
    requires { at + 8 ≤ length (bytes_of_pieces v.now) }
    ensures { result ≡ pointer_of (part at 8 (bytes_of_pieces v.now)) }
{
    match spelled_from(&v.part(at, 8), 0, 8) {
        None => None,
        Some(spelled) => Some(Pointer {
            addr: spelled.number as u64,
            prov: shared(spelled.sharing),
        }),
    }
}
