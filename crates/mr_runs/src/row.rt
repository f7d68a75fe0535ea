//! Runs that are put together in a row, from left to right: neighbours with one mark become one.
ghost use Rattle.std.specs.Prelude.{◌≡◌, ℕ, ◌+◌, ◌<◌, ◌≤◌, ◌^◌, List, [], ◌∷◌, ◌++◌, length, OnOk};
ghost use Rattle.mr_base.specs.declared.byte.AbstractByte.{AbstractByte};
ghost use Rattle.mr_runs.specs.Exchanged.{one_piece, IsBegun, IsPushed};
ghost use Rattle.mr_runs.specs.Pieces.{SeenPiece, piece_len};
ghost use Rattle.mr_runs.specs.Placed.{total_len};
ghost use Rattle.mr_runs.specs.Seen.{seen_piece};

use crate::OutOfMemory;
use crate::mark::is_same;
use crate::run::Run;
use crate::views::Piece;
use mr_base::AbstractByte;
use std::alloc::Global;

/// Puts a piece behind a row, which ends at `at`.
pub(crate) fn push(
    alloc: Global,
    row: &mut Vec<(u64, Run<Vec<u8>>)>,
    at: u64,
    piece: Piece<'_>,
) -> Result<(), OutOfMemory>
    requires room { total_len row.old.items ≤ at }
    requires fits { at + piece_len (seen_piece piece) < 2 ^ 64 }
    ensures { OnOk result (IsPushed row.old.items at (seen_piece piece.entry) row.new.items) }
{
    let Some((begin, run)) = row.pop() else {
        return add(alloc, row, at, piece);
    };
    if is_same(run.mark(), piece.mark()) {
        let joined = run.with(piece)?;
        row.push((begin, joined))?;
        return Ok(());
    }
    row.push((begin, run))?;
    add(alloc, row, at, piece)
}

// Puts a piece behind a row as a run of its own.
fn add(
    alloc: Global,
    row: &mut Vec<(u64, Run<Vec<u8>>)>,
    at: u64,
    piece: Piece<'_>,
) -> Result<(), OutOfMemory>
    ensures { OnOk result (row.new.items ≡ row.old.items ++ (at, seen_piece piece.entry) ∷ []) }
{
    let run = Run::of(alloc, piece)?;
    row.push((at, run))?;
    Ok(())
}

/// Puts bytes behind a row one by one.
pub(crate) fn push_each(
    alloc: Global,
    row: &mut Vec<(u64, Run<Vec<u8>>)>,
    at: u64,
    bytes: &[AbstractByte],
) -> Result<(), OutOfMemory>
    requires room { total_len row.old.items ≤ at }
    requires fits { at + length bytes.now < 2 ^ 64 }
    ensures { OnOk result ((es : List (ℕ × SeenPiece)) (done : List AbstractByte)
        → IsBegun es row.old.items done → length done ≡ at → IsBegun es row.new.items (done ++ bytes.now)) }
{
    for (index, byte) in bytes.iter().enumerate() {
        push_byte(alloc, row, at + index as u64, *byte)?;
    }
    Ok(())
}

// Puts a byte behind a row.
fn push_byte(
    alloc: Global,
    row: &mut Vec<(u64, Run<Vec<u8>>)>,
    at: u64,
    byte: AbstractByte,
) -> Result<(), OutOfMemory>
    requires room { total_len row.old.items ≤ at }
    requires fits { at + 1 < 2 ^ 64 }
    ensures { OnOk result (IsPushed row.old.items at (one_piece byte) row.new.items) }
{
    match byte {
        AbstractByte::Uninit => push(alloc, row, at, Piece::Uninit(1)),
        AbstractByte::Init(number, provenance) => {
            push(alloc, row, at, Piece::Bytes(&[number], provenance))
        }
    }
}
