//! The allocations that the start makes before its frame.
ghost use Rattle.std.specs.Prelude.{◌≡◌, All, IfOk, None, map};
ghost use Rattle.mr_eval.specs.MemoryQueries.{pointer_to};
ghost use Rattle.mr_start.specs.Begin.{IsPossible, IsPlaced, own_id, piece_of, pieces_fault};

use crate::pieces::Piece;
use mr_base::{AllocId, Pointer};
use mr_mem::Memory;
use std::alloc::{AllocError, Global};

/// The memory with some allocations of thread 0, and the pointers to them.
#[derive(Drop)]
pub struct Begun {
    pub memory: Memory,
    pub pointers: Vec<Pointer>,
}

/// Allocates the pieces at the picked addresses, which break no rule, as thread 0.
pub fn place(alloc: Global, pieces: &[Piece], picks: &[u64]) -> Result<Begun, AllocError>
    requires possible { All (λ piece. IsPossible (piece_of piece)) pieces.now }
    requires lawful { pieces_fault (map piece_of pieces.now) picks.now ≡ None }
    ensures { IfOk result (IsPlaced (map piece_of pieces.now) picks.now) }
{
    let mut memory = Memory::new(alloc);
    let mut pointers = Vec::new(alloc);
    for (count, piece) in pieces.iter().enumerate() {
        let id = own(count as u64);
        let addr = picks[count];
        memory.allocate(id, piece.kind, piece.size, piece.align, addr)?;
        pointers.push(to(id, addr))?;
    }
    Ok(Begun { memory, pointers })
}

// The identity of an allocation of thread 0.
fn own(count: u64) -> AllocId
    ensures { result ≡ own_id count }
{
    AllocId { thread: 0, count }
}

fn to(id: AllocId, addr: u64) -> Pointer
    ensures { result ≡ pointer_to id addr }
{
    Pointer {
        addr,
        prov: Some(id),
    }
}
