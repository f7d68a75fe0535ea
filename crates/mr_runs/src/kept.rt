//! What is kept of the bytes of an allocation: runs with their numbers, until a change would copy much. From then on the
//! marks stand apart, and a change costs what it changes and the search for it.
ghost use Rattle.std.specs.Prelude.{◌≡◌, ℕ, ◌+◌, ◌<◌, ◌≤◌, ◌^◌, false, length, replicate, IfOk, IsTrue, OnErr, OnOk};
ghost use Rattle.mr_base.specs.declared.byte.AbstractByte.TheVariants.{Uninit};
ghost use Rattle.mr_runs.specs.Pieces.{bytes_of_piece, piece_len};
ghost use Rattle.mr_runs.specs.Placed.{bytes_in, total_len, IsReplaced, IsTiled};
ghost use Rattle.mr_runs.specs.Seen.{seen_piece};
ghost use Rattle.mr_runs.specs.Stamped.{entries_of, stamped, IsApart, IsChanged, IsSame, IsSound, IsStamped, IsStampedAnew};

use crate::OutOfMemory;
use crate::finding::run_at;
use crate::grow::write_behind;
use crate::mark::{Mark, is_same};
use crate::marks::{set_mark, set_marks};
use crate::replace::{put_in_place, replace, write_each, write_in_place};
use crate::run::{Apart, Numbers, Run, numbers_of, provenance_of, put_numbers, replace_numbers};
use crate::views::Piece;
use mr_base::AbstractByte;
use std::alloc::Global;
use std::collections::BTreeMap;

// How many bytes are copied rather than that the marks are set apart, and of how many bytes in all one is then copied at least.
const LONG: u64 = 4096;

const MOST: u64 = 256;

/// Runs with their numbers; or runs without, and a number for each byte, which says nothing of an uninitialised one.
#[derive(Drop)]
pub(crate) enum Kept {
    Whole(BTreeMap<u64, Run<Vec<u8>>>),
    Split(BTreeMap<u64, Run<Apart>>, Vec<u8>),
}

/// Writes bytes, of one mark or several.
pub(crate) fn write_bytes(
    alloc: Global,
    kept: &mut Kept,
    len: u64,
    from: u64,
    bytes: &[AbstractByte],
) -> Result<(), OutOfMemory>
    requires sound { IsSound kept.old len }
    requires inside { from + length bytes.now ≤ len }
    requires some { 0 < length bytes.now }
    ensures ok { OnOk result (IsChanged kept.old kept.new len from bytes.now) }
    ensures err { OnErr result (IsSame kept.old kept.new len) }
{
    if bytes_in_place(kept, len, from, bytes) {
        return Ok(());
    }
    match provenance_of(bytes) {
        Some(provenance) => {
            let numbers = numbers_of(alloc, bytes)?;
            put_piece(
                alloc,
                kept,
                len,
                from,
                Piece::Bytes(numbers.as_slice(), provenance),
            )
        }
        None => put_mixed(alloc, kept, len, from, bytes),
    }
}

// Writes bytes into a run that has their provenance and its numbers. Answers whether it did.
fn bytes_in_place(kept: &mut Kept, len: u64, from: u64, bytes: &[AbstractByte]) -> bool
    requires sound { IsSound kept.old len }
    requires inside { from + length bytes.now ≤ len }
    requires some { 0 < length bytes.now }
    ensures done { IsTrue result → IsChanged kept.old kept.new len from bytes.now }
    ensures not_done { result ≡ false → IsSame kept.old kept.new len }
{
    let _len = len;
    match kept {
        Kept::Whole(runs) => write_in_place(runs, from, bytes),
        Kept::Split(_, _) => false,
    }
}

/// Puts the bytes of a piece in place of as many.
pub(crate) fn put_piece(
    alloc: Global,
    kept: &mut Kept,
    len: u64,
    from: u64,
    piece: Piece<'_>,
) -> Result<(), OutOfMemory>
    requires sound { IsSound kept.old len }
    requires inside { from + piece_len (seen_piece piece) ≤ len }
    requires some { 0 < piece_len (seen_piece piece) }
    ensures ok { OnOk result (IsChanged kept.old kept.new len from (bytes_of_piece (seen_piece piece.entry))) }
    ensures err { OnErr result (IsSame kept.old kept.new len) }
{
    if put_if_whole(alloc, kept, len, from, piece)? {
        return Ok(());
    }
    set_apart(alloc, kept, len)?;
    put_if_apart(alloc, kept, len, from, piece)
}

// Puts the bytes of a piece in place of as many, where runs have their numbers and it copies little. Answers whether it did.
fn put_if_whole(
    alloc: Global,
    kept: &mut Kept,
    len: u64,
    from: u64,
    piece: Piece<'_>,
) -> Result<bool, OutOfMemory>
    requires sound { IsSound kept.old len }
    requires inside { from + piece_len (seen_piece piece) ≤ len }
    requires some { 0 < piece_len (seen_piece piece) }
    ensures done { IfOk result (λ did. IsTrue did
        → IsChanged kept.old kept.new len from (bytes_of_piece (seen_piece piece.entry))) }
    ensures not_done { IfOk result (λ did. did ≡ false → IsSame kept.old kept.new len) }
    ensures err { OnErr result (IsSame kept.old kept.new len) }
{
    match kept {
        Kept::Whole(runs) => put_whole(alloc, runs, len, from, piece),
        Kept::Split(_, _) => Ok(false),
    }
}

// The same of runs.
fn put_whole(
    alloc: Global,
    runs: &mut BTreeMap<u64, Run<Vec<u8>>>,
    len: u64,
    from: u64,
    piece: Piece<'_>,
) -> Result<bool, OutOfMemory>
    requires tiled { IsTiled runs.old.entries }
    requires whole { total_len runs.old.entries ≡ len }
    requires inside { from + piece_len (seen_piece piece) ≤ len }
    requires some { 0 < piece_len (seen_piece piece) }
    ensures done { IfOk result (λ did. IsTrue did
        → IsReplaced runs.old.entries runs.new.entries from (bytes_of_piece (seen_piece piece.entry))) }
    ensures not_done { IfOk result (λ did. did ≡ false → runs.new.entries ≡ runs.old.entries) }
    ensures err { OnErr result (runs.new.entries ≡ runs.old.entries) }
{
    if put_without_copy(runs, from, piece)? {
        return Ok(true);
    }
    if is_costly(runs, len, from, piece.len()) {
        return Ok(false);
    }
    replace(alloc, runs, len, from, piece)?;
    Ok(true)
}

// Puts numbers in place, or behind a run of their provenance, where they make no other run. Answers whether it did.
fn put_without_copy(
    runs: &mut BTreeMap<u64, Run<Vec<u8>>>,
    from: u64,
    piece: Piece<'_>,
) -> Result<bool, OutOfMemory>
    requires tiled { IsTiled runs.old.entries }
    requires inside { from + piece_len (seen_piece piece) ≤ total_len runs.old.entries }
    requires some { 0 < piece_len (seen_piece piece) }
    requires fits { from + piece_len (seen_piece piece) < 2 ^ 64 }
    ensures done { IfOk result (λ did. IsTrue did
        → IsReplaced runs.old.entries runs.new.entries from (bytes_of_piece (seen_piece piece.entry))) }
    ensures not_done { IfOk result (λ did. did ≡ false → runs.new.entries ≡ runs.old.entries) }
    ensures err { OnErr result (runs.new.entries ≡ runs.old.entries) }
{
    match piece {
        Piece::Uninit(_) => Ok(false),
        Piece::Bytes(numbers, provenance) => {
            if put_in_place(runs, from, numbers, provenance) {
                return Ok(true);
            }
            write_behind(runs, from, numbers, provenance)
        }
    }
}

// Whether a change of so many bytes would copy a long part of a run that it leaves as it is.
fn is_costly(runs: &BTreeMap<u64, Run<Vec<u8>>>, len: u64, from: u64, count: u64) -> bool
    requires tiled { IsTiled runs.now.entries }
    requires whole { total_len runs.now.entries ≡ len }
    requires inside { from + count ≤ len }
{
    let long = LONG.max(len / MOST);
    if from > 0 {
        let (begin, run) = run_at(runs, from - 1);
        if from - begin >= long && !is_same(run.mark(), Mark::Uninit) {
            return true;
        }
    }
    let to = from + count;
    if to == len {
        return false;
    }
    let (begin, run) = run_at(runs, to);
    run.len() - (to - begin) >= long && !is_same(run.mark(), Mark::Uninit)
}

// Writes bytes of several marks.
fn put_mixed(
    alloc: Global,
    kept: &mut Kept,
    len: u64,
    from: u64,
    bytes: &[AbstractByte],
) -> Result<(), OutOfMemory>
    requires sound { IsSound kept.old len }
    requires inside { from + length bytes.now ≤ len }
    requires some { 0 < length bytes.now }
    ensures ok { OnOk result (IsChanged kept.old kept.new len from bytes.now) }
    ensures err { OnErr result (IsSame kept.old kept.new len) }
{
    if mixed_if_whole(alloc, kept, len, from, bytes)? {
        return Ok(());
    }
    set_apart(alloc, kept, len)?;
    mixed_if_apart(alloc, kept, len, from, bytes)
}

// Writes bytes of several marks, where runs have their numbers and it copies little. Answers whether it did.
fn mixed_if_whole(
    alloc: Global,
    kept: &mut Kept,
    len: u64,
    from: u64,
    bytes: &[AbstractByte],
) -> Result<bool, OutOfMemory>
    requires sound { IsSound kept.old len }
    requires inside { from + length bytes.now ≤ len }
    requires some { 0 < length bytes.now }
    ensures done { IfOk result (λ did. IsTrue did → IsChanged kept.old kept.new len from bytes.now) }
    ensures not_done { IfOk result (λ did. did ≡ false → IsSame kept.old kept.new len) }
    ensures err { OnErr result (IsSame kept.old kept.new len) }
{
    match kept {
        Kept::Whole(runs) => mixed_whole(alloc, runs, len, from, bytes),
        Kept::Split(_, _) => Ok(false),
    }
}

// The same of runs.
fn mixed_whole(
    alloc: Global,
    runs: &mut BTreeMap<u64, Run<Vec<u8>>>,
    len: u64,
    from: u64,
    bytes: &[AbstractByte],
) -> Result<bool, OutOfMemory>
    requires tiled { IsTiled runs.old.entries }
    requires whole { total_len runs.old.entries ≡ len }
    requires inside { from + length bytes.now ≤ len }
    requires some { 0 < length bytes.now }
    ensures done { IfOk result (λ did. IsTrue did → IsReplaced runs.old.entries runs.new.entries from bytes.now) }
    ensures not_done { IfOk result (λ did. did ≡ false → runs.new.entries ≡ runs.old.entries) }
    ensures err { OnErr result (runs.new.entries ≡ runs.old.entries) }
{
    if is_costly(runs, len, from, bytes.len() as u64) {
        return Ok(false);
    }
    write_each(alloc, runs, len, from, bytes)?;
    Ok(true)
}

// Sets the marks apart, if they aren't.
fn set_apart(alloc: Global, kept: &mut Kept, len: u64) -> Result<(), OutOfMemory>
    requires { IsSound kept.old len }
    ensures apart { OnOk result (IsApart kept.new) }
    ensures same { IsSame kept.old kept.new len }
{
    match kept {
        Kept::Whole(runs) => {
            let apart = apart_of(alloc, runs, len)?;
            *kept = apart;
            Ok(())
        }
        Kept::Split(_, _) => Ok(()),
    }
}

// The bytes of runs, with the marks apart.
fn apart_of(
    alloc: Global,
    runs: &BTreeMap<u64, Run<Vec<u8>>>,
    len: u64,
) -> Result<Kept, OutOfMemory>
    requires tiled { IsTiled runs.now.entries }
    requires whole { total_len runs.now.entries ≡ len }
    ensures apart { IfOk result IsApart }
    ensures sound { IfOk result (λ kept. IsSound kept len) }
    ensures bytes_are { IfOk result (λ kept. bytes_in (entries_of kept) ≡ bytes_in runs.now.entries) }
{
    let mut marks = uninit_runs(alloc, len)?;
    let mut numbers = vec![in alloc; 0; len as usize]?;
    let mut at = 0;
    while at < len {
        let (begin, run) = run_at(runs, at);
        let piece = run.part(0, run.len());
        put_apart(alloc, &mut marks, &mut numbers, len, begin, piece)?;
        at = begin + run.len();
    }
    Ok(Kept::Split(marks, numbers))
}

/// The runs of so many uninitialised bytes: one, or none.
pub(crate) fn uninit_runs<N: Numbers>(
    alloc: Global,
    len: u64,
) -> Result<BTreeMap<u64, Run<N>>, OutOfMemory>
    ensures tiled { IfOk result (λ runs. IsTiled runs.entries) }
    ensures whole { IfOk result (λ runs. total_len runs.entries ≡ len) }
    ensures bytes { IfOk result (λ runs. bytes_in runs.entries ≡ replicate len Uninit) }
{
    let mut runs = BTreeMap::new(alloc);
    if len == 0 {
        return Ok(runs);
    }
    runs.insert(0, Run::uninit(len))?;
    Ok(runs)
}

// Puts the bytes of a piece in place of as many, where the marks stand apart.
fn put_if_apart(
    alloc: Global,
    kept: &mut Kept,
    len: u64,
    from: u64,
    piece: Piece<'_>,
) -> Result<(), OutOfMemory>
    requires sound { IsSound kept.old len }
    requires apart { IsApart kept.old }
    requires inside { from + piece_len (seen_piece piece) ≤ len }
    requires some { 0 < piece_len (seen_piece piece) }
    ensures ok { OnOk result (IsChanged kept.old kept.new len from (bytes_of_piece (seen_piece piece.entry))) }
    ensures err { OnErr result (IsSame kept.old kept.new len) }
{
    match kept {
        Kept::Whole(_) => unreachable!(),
        Kept::Split(marks, numbers) => put_apart(alloc, marks, numbers, len, from, piece),
    }
}

// The same of marks and numbers.
fn put_apart(
    alloc: Global,
    marks: &mut BTreeMap<u64, Run<Apart>>,
    numbers: &mut Vec<u8>,
    len: u64,
    from: u64,
    piece: Piece<'_>,
) -> Result<(), OutOfMemory>
    requires sound { IsStamped marks.old.entries numbers.old.items len }
    requires inside { from + piece_len (seen_piece piece) ≤ len }
    requires some { 0 < piece_len (seen_piece piece) }
    ensures ok { OnOk result (IsStampedAnew marks.old.entries marks.new.entries numbers.old.items numbers.new.items len from
        (bytes_of_piece (seen_piece piece.entry))) }
    ensures err_marks { OnErr result (marks.new.entries ≡ marks.old.entries) }
    ensures err_numbers { OnErr result (numbers.new.items ≡ numbers.old.items) }
{
    set_mark(alloc, marks, len, from, piece.len(), piece.mark())?;
    replace_numbers(numbers.as_mut_slice(), from as usize, piece.numbers());
    Ok(())
}

// Writes bytes of several marks, where the marks stand apart.
fn mixed_if_apart(
    alloc: Global,
    kept: &mut Kept,
    len: u64,
    from: u64,
    bytes: &[AbstractByte],
) -> Result<(), OutOfMemory>
    requires sound { IsSound kept.old len }
    requires apart { IsApart kept.old }
    requires inside { from + length bytes.now ≤ len }
    requires some { 0 < length bytes.now }
    ensures ok { OnOk result (IsChanged kept.old kept.new len from bytes.now) }
    ensures err { OnErr result (IsSame kept.old kept.new len) }
{
    match kept {
        Kept::Whole(_) => unreachable!(),
        Kept::Split(marks, numbers) => mixed_apart(alloc, marks, numbers, len, from, bytes),
    }
}

// The same of marks and numbers.
fn mixed_apart(
    alloc: Global,
    marks: &mut BTreeMap<u64, Run<Apart>>,
    numbers: &mut Vec<u8>,
    len: u64,
    from: u64,
    bytes: &[AbstractByte],
) -> Result<(), OutOfMemory>
    requires sound { IsStamped marks.old.entries numbers.old.items len }
    requires inside { from + length bytes.now ≤ len }
    requires some { 0 < length bytes.now }
    ensures ok { OnOk result
        (IsStampedAnew marks.old.entries marks.new.entries numbers.old.items numbers.new.items len from bytes.now) }
    ensures err_marks { OnErr result (marks.new.entries ≡ marks.old.entries) }
    ensures err_numbers { OnErr result (numbers.new.items ≡ numbers.old.items) }
{
    set_marks(alloc, marks, len, from, bytes)?;
    put_numbers(numbers.as_mut_slice(), from as usize, bytes);
    Ok(())
}
