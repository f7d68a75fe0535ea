//! Views of a part of the bytes.
ghost use Rattle.std.specs.Prelude.{◌≡◌, ◌+◌, ◌<◌, ◌≤◌, ◌^◌, [], length, take, drop, slice_get, option_map, option_copied};
ghost use Rattle.std.specs.Map.{values_of};
ghost use Rattle.mr_runs.specs.Exchanged.{numbers_of};
ghost use Rattle.mr_runs.specs.Pieces.{bytes_of_pieces, mark_of, piece_len, AreMaximal};
ghost use Rattle.mr_runs.specs.Placed.{bytes_in, total_len, IsTiled};
ghost use Rattle.mr_runs.specs.Seen.{seen_piece};
ghost use Rattle.mr_runs.specs.Stamped.{entries_of, stamped, stamped_piece, IsStamped};
ghost use Rattle.mr_runs.specs.Lent.{lent_pieces, IsLent};
ghost use Rattle.mr_runs.specs.Windows.{clipped_piece, first_pieces, pieces_past};

use crate::finding::{nth_from, run_at};
use crate::kept::Kept;
use crate::mark::Mark;
use crate::run::{Apart, Run, slice_of};
use mr_base::{AbstractByte, AllocId};
use std::collections::BTreeMap;
use std::marker::Model;

/// Abstract bytes that are lent, in pieces. No call of a view takes memory.
#[derive(Drop)]
pub struct View<'a> {
    /// What the window is on; nothing where it is empty.
    kept: Option<&'a Kept>,
    from: u64,
    len: u64,
}

impl<'a> Model for View<'a> {
    ghost use Rattle.std.specs.Prelude.{List, option_copied};
    ghost use Rattle.mr_runs.specs.Pieces.{SeenPiece};

    ghost Value = { List SeenPiece };

    ghost use Rattle.mr_runs.specs.Lent.{lent_pieces, IsLent};

    ghost view = { λ v. lent_pieces (option_copied v.kept) v.from v.len };

    ghost invariant = { λ v. IsLent (option_copied v.kept) v.from v.len };
}

/// Neighbouring bytes of one kind: so many uninitialised ones, or the numbers of initialised ones with their common
/// provenance.
#[derive(Clone, Copy, Debug, PartialEq, Eq)]
pub enum Piece<'a> {
    Uninit(u64),
    Bytes(&'a [u8], Option<AllocId>),
}

impl<'a> Piece<'a> {
    /// How many bytes there are.
    pub(crate) fn len(self) -> u64
        ensures { result ≡ piece_len (seen_piece self.entry) }
    {
        match self {
            Piece::Uninit(len) => len,
            Piece::Bytes(numbers, _) => numbers.len() as u64,
        }
    }

    /// What the bytes have in common.
    pub(crate) fn mark(self) -> Mark
        ensures { result ≡ mark_of (seen_piece self.entry) }
    {
        match self {
            Piece::Uninit(_) => Mark::Uninit,
            Piece::Bytes(_, provenance) => Mark::Init(provenance),
        }
    }

    /// The numbers of the bytes; uninitialised ones have none.
    pub(crate) fn numbers(self) -> &'a [u8]
        ensures { result.now ≡ numbers_of (seen_piece self.entry) }
    {
        match self {
            Piece::Uninit(_) => &[],
            Piece::Bytes(numbers, _) => numbers,
        }
    }
}

impl<'a> View<'a> {
    /// A view with no piece.
    pub fn empty() -> View<'a>
        ensures { result ≡ [] }
    {
        View {
            kept: None,
            from: 0,
            len: 0,
        }
    }

    /// How many bytes there are in all pieces.
    pub fn len(&self) -> u64
        ensures { result ≡ length (bytes_of_pieces self.now) }
    {
        self.len
    }

    /// The byte at the position `at`, counted from the view's first byte.
    pub fn byte(&self, at: u64) -> AbstractByte
        requires { at < length (bytes_of_pieces self.now) }
        ensures { slice_get (bytes_of_pieces self.now) at ≡ Some result }
    {
        byte_at(self.kept, self.from, self.len, at)
    }

    /// The piece with the number `n`, counted from 0; `None` past the last.
    pub fn piece(&self, n: usize) -> Option<Piece<'_>>
        ensures { option_map seen_piece result ≡ slice_get self.now n }
    {
        piece_at(self.kept, self.from, self.len, n)
    }

    /// The `len` bytes from the position `from` on, lent as long as the runs are, in as few pieces as can be.
    pub fn part(&self, from: u64, len: u64) -> View<'a>
        requires { from + len ≤ length (bytes_of_pieces self.now) }
        ensures same { bytes_of_pieces result ≡ take len (drop from (bytes_of_pieces self.now)) }
        ensures maximal { AreMaximal result }
    {
        window(self.kept, self.from, self.len, from, len)
    }
}

/// A window on what is kept.
pub(crate) fn lend(kept: &Kept, from: u64, len: u64) -> View<'_>
    requires { IsLent (Some kept.now) from len }
    ensures same { bytes_of_pieces result ≡ take len (drop from (bytes_in (entries_of kept.now))) }
    ensures maximal { AreMaximal result }
{
    View {
        kept: Some(kept),
        from,
        len,
    }
}

// A window on the window of `whole` bytes from `begin` on.
fn window<'a>(kept: Option<&'a Kept>, begin: u64, whole: u64, from: u64, len: u64) -> View<'a>
    requires lent { IsLent (option_copied kept) begin whole }
    requires inside { from + len ≤ whole }
    ensures same { bytes_of_pieces result
        ≡ take len (drop from (bytes_of_pieces (lent_pieces (option_copied kept.entry) begin whole))) }
    ensures maximal { AreMaximal result }
{
    View {
        kept,
        from: begin + from,
        len,
    }
}

fn byte_at(kept: Option<&Kept>, from: u64, len: u64, at: u64) -> AbstractByte
    requires lent { IsLent (option_copied kept) from len }
    requires inside { at < len }
    ensures { slice_get (bytes_of_pieces (lent_pieces (option_copied kept.entry) from len)) at ≡ Some result }
{
    match kept {
        Some(kept) => byte_of(kept, from + at),
        None => unreachable!(),
    }
}

// The byte at a position of those that are kept.
fn byte_of(kept: &Kept, at: u64) -> AbstractByte
    requires { IsLent (Some kept.now) at 1 }
    ensures { slice_get (bytes_in (entries_of kept.now)) at ≡ Some result }
{
    match kept {
        Kept::Whole(runs) => byte_of_runs(runs, at),
        Kept::Split(marks, numbers) => byte_of_marks(marks, numbers.as_slice(), at),
    }
}

// The byte of some runs at a position.
fn byte_of_runs(runs: &BTreeMap<u64, Run<Vec<u8>>>, at: u64) -> AbstractByte
    requires tiled { IsTiled runs.now.entries }
    requires inside { at < total_len runs.now.entries }
    ensures { slice_get (bytes_in runs.now.entries) at ≡ Some result }
{
    let (begin, run) = run_at(runs, at);
    run.byte(at - begin)
}

// The byte at a position, where the marks stand apart.
fn byte_of_marks(marks: &BTreeMap<u64, Run<Apart>>, numbers: &[u8], at: u64) -> AbstractByte
    requires sound { IsStamped marks.now.entries numbers.now (length numbers.now) }
    requires inside { at < length numbers.now }
    ensures { slice_get (bytes_in (stamped numbers.now marks.now.entries)) at ≡ Some result }
{
    let (_, run) = run_at(marks, at);
    match run.mark() {
        Mark::Uninit => AbstractByte::Uninit,
        Mark::Init(provenance) => AbstractByte::Init(numbers[at as usize], provenance),
    }
}

fn piece_at<'a>(kept: Option<&'a Kept>, from: u64, len: u64, n: usize) -> Option<Piece<'a>>
    requires { IsLent (option_copied kept) from len }
    ensures { option_map seen_piece result ≡ slice_get (lent_pieces (option_copied kept.entry) from len) n }
{
    match kept {
        Some(kept) => piece_of(kept, from, len, n),
        None => None,
    }
}

// The piece with the number `n` of a window.
fn piece_of<'a>(kept: &'a Kept, from: u64, len: u64, n: usize) -> Option<Piece<'a>>
    requires { IsLent (Some kept.now) from len }
    ensures { option_map seen_piece result ≡ slice_get (lent_pieces (Some kept.entry.now) from len) n }
{
    match kept {
        Kept::Whole(runs) => piece_of_runs(runs, from, len, n),
        Kept::Split(marks, numbers) => piece_of_marks(marks, numbers.as_slice(), from, len, n),
    }
}

// The piece with the number `n` of a window on some runs.
fn piece_of_runs<'a>(
    runs: &'a BTreeMap<u64, Run<Vec<u8>>>,
    from: u64,
    len: u64,
    n: usize,
) -> Option<Piece<'a>>
    requires tiled { IsTiled runs.now.entries }
    requires inside { from + len ≤ total_len runs.now.entries }
    requires fits { from + len < 2 ^ 64 }
    ensures { option_map seen_piece result
        ≡ slice_get (first_pieces (pieces_past (values_of runs.now.entries) from) len) n }
{
    if len == 0 {
        return None;
    }
    let (first, run) = run_at(runs, from);
    if n == 0 {
        return clipped(run, first, from, from + len);
    }
    match nth_from(runs, first, n) {
        Some((begin, run)) => clipped(run, begin, from, from + len),
        None => None,
    }
}

// The piece with the number `n` of a window, where the marks stand apart.
fn piece_of_marks<'a>(
    marks: &BTreeMap<u64, Run<Apart>>,
    numbers: &'a [u8],
    from: u64,
    len: u64,
    n: usize,
) -> Option<Piece<'a>>
    requires sound { IsStamped marks.now.entries numbers.now (length numbers.now) }
    requires inside { from + len ≤ length numbers.now }
    requires fits { from + len < 2 ^ 64 }
    ensures { option_map seen_piece result
        ≡ slice_get (first_pieces (pieces_past (values_of (stamped numbers.now marks.now.entries)) from) len) n }
{
    if len == 0 {
        return None;
    }
    let (first, run) = run_at(marks, from);
    if n == 0 {
        return clipped_marks(numbers, run, first, from, from + len);
    }
    match nth_from(marks, first, n) {
        Some((begin, run)) => clipped_marks(numbers, run, begin, from, from + len),
        None => None,
    }
}

// The same as `clipped`, where the numbers stand apart.
fn clipped_marks<'a>(
    numbers: &'a [u8],
    run: &Run<Apart>,
    begin: u64,
    from: u64,
    to: u64,
) -> Option<Piece<'a>>
    requires inside { from < begin + piece_len run.now }
    requires forward { from ≤ to }
    requires all { begin + piece_len run.now ≤ length numbers.now }
    ensures { option_map seen_piece result
        ≡ clipped_piece (stamped_piece (drop begin numbers.now) run.now) begin from to }
{
    if begin >= to {
        return None;
    }
    let (whole, mark) = run.told();
    let skipped = from.saturating_sub(begin);
    let count = (to - begin - skipped).min(whole - skipped);
    match mark {
        Mark::Uninit => Some(Piece::Uninit(count)),
        Mark::Init(provenance) => {
            let first = (begin + skipped) as usize;
            Some(Piece::Bytes(slice_of(numbers, first, count as usize), provenance))
        }
    }
}

// What a window from `from` up to `to` has of the run that begins at `begin`, which ends behind `from`.
fn clipped(run: &Run<Vec<u8>>, begin: u64, from: u64, to: u64) -> Option<Piece<'_>>
    requires inside { from < begin + piece_len run.now }
    requires forward { from ≤ to }
    ensures { option_map seen_piece result ≡ clipped_piece run.now begin from to }
{
    if begin >= to {
        return None;
    }
    let skipped = from.saturating_sub(begin);
    let count = (to - begin - skipped).min(run.len() - skipped);
    Some(run.part(skipped, count))
}
