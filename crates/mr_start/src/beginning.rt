//! The start of a run.
ghost use Rattle.std.specs.Prelude.{◌≡◌, IfOk, None, map};
ghost use Rattle.mr_frame.specs.Kept.{IsReady};
ghost use Rattle.mr_start.specs.Begin.{BeginAnswer, IsBegun, IsEntered, IsStart, JudgeAnswer, first_placed, piece_of, pieces_fault};
ghost use Rattle.mr_start.specs.Start.{ask_of, pieces as all_pieces, start_fault};

use crate::failure::PickFailure;
use crate::globals::fill;
use crate::judging::judge;
use crate::pieces::{Piece, pieces};
use crate::placing::{Begun, place};
use mr_base::Pointer;
use mr_eval::Scene;
use mr_frame::{Look, Stack};
use mr_layout::Cache;
use mr_mem::Memory;
use mr_sched::Ask;
use mr_sync::SyncTable;
use mr_typing::Checked;
use std::alloc::{AllocError, AllocFailed, Global};

/// Why a start is refused.
#[derive(Clone, Copy, Debug, PartialEq, Eq)]
pub enum StartFault {
    /// The start line breaks this rule.
    Broken(PickFailure),
    /// Memory ran out.
    Memory,
}

impl From<AllocError> for StartFault {
    ghost use Rattle.std.specs.Prelude.{◌≡◌};
    ghost use Rattle.mr_start.specs.declared.beginning.StartFault.TheVariants.{Memory};

    ghost from_gives = { λ _ e. e ≡ Memory };

    fn from(_: AllocError) -> Self {
        StartFault::Memory
    }
}

impl<T: Drop> From<AllocFailed<T>> for StartFault {
    ghost use Rattle.std.specs.Prelude.{◌≡◌};
    ghost use Rattle.mr_start.specs.declared.beginning.StartFault.TheVariants.{Memory};

    ghost from_gives = { λ _ e. e ≡ Memory };

    fn from(_: AllocFailed<T>) -> Self {
        StartFault::Memory
    }
}

/// Where a run begins: memory, the pointers to functions and globals, the layouts of the program's types, and the frame of thread 0 with the
/// number of allocations that it has made.
#[derive(Drop)]
pub struct Start<'p> {
    pub memory: Memory,
    pub functions: Vec<Pointer>,
    pub globals: Vec<Pointer>,
    pub cache: Cache<'p>,
    pub stack: Stack,
    pub count: u64,
}

// What pieces ask for.
fn asks_of(alloc: Global, pieces: &[Piece]) -> Result<Vec<Ask>, AllocError>
    ensures { IfOk result (λ asks. asks.items ≡ map ask_of (map piece_of pieces.now)) }
{
    let mut asks = Vec::new(alloc);
    for piece in pieces {
        asks.push(Ask::Address {
            size: piece.size,
            align: piece.align,
        })?;
    }
    Ok(asks)
}

/// What the start line is asked for: an address for each function, each global and the return local of the main function.
pub fn start_asks(alloc: Global, p: &Checked) -> Result<Vec<Ask>, AllocError>
    ensures { IfOk result (λ asks. asks.items ≡ map ask_of (all_pieces p.now)) }
{
    let made = pieces(alloc, p.program())?;
    asks_of(alloc, made.as_slice())
}

// The picks of a start line against the pieces that it allocates.
fn judge_start(alloc: Global, pieces: &[Piece], picks: &[u64]) -> Result<(), StartFault>
    ensures { JudgeAnswer (pieces_fault (map piece_of pieces.now) picks.now) result }
{
    let asks = asks_of(alloc, pieces)?;
    let sync = SyncTable::new(alloc)?;
    let memory = Memory::new(alloc);
    match judge(&memory, &sync, 0, 0, asks.as_slice(), picks) {
        Ok(()) => Ok(()),
        Err(failure) => Err(StartFault::Broken(failure)),
    }
}

// What stands behind the entry of the main function: memory, its frame, and how many allocations thread 0 has made.
#[derive(Drop)]
struct Entered {
    memory: Memory,
    stack: Stack,
    count: u64,
}

// The main function is entered, behind the allocations of functions and globals.
fn enter_main(
    alloc: Global,
    look: &Look<'_>,
    memory: Memory,
    picks: &[u64],
) -> Result<Entered, AllocError>
    requires ready { IsReady look.now }
    requires legal { start_fault look.now.program.now picks.now ≡ None }
    requires memory { memory ≡ (first_placed look.now.program.now picks.now).memory }
    ensures { IfOk result (IsEntered look.now.program.now picks.now) }
{
    let made = look.functions.len() + look.globals.len();
    let mut scene = Scene::new(alloc, memory, 0, made as u64);
    let start = look.program.program().start;
    let stack = Stack::enter(alloc, look, &mut scene, start, &[], &picks[made..])?;
    Ok(Entered {
        memory: scene.memory,
        stack,
        count: scene.count,
    })
}

// The start behind the allocations of functions and globals: the main function's frame, and then the bytes of the globals.
#[tactic(auto, using(mr_typing::proofs::WrittenOk::written_ok))]
fn started<'p>(
    alloc: Global,
    p: &'p Checked,
    begun: Begun,
    picks: &[u64],
) -> Result<Start<'p>, AllocError>
    requires legal { start_fault p.now picks.now ≡ None }
    requires begun { IsBegun p.now picks.now begun }
    ensures { IfOk result (IsStart p.now picks.now) }
{
    let Begun { memory, pointers } = begun;
    let program = p.program();
    let (functions, globals) = pointers.as_slice().split_at(program.functions.len());
    let cache = Cache::new(alloc, program)?;
    let look = Look {
        program: p,
        functions,
        globals,
        cache: &cache,
    };
    let Entered {
        mut memory,
        stack,
        count,
    } = enter_main(alloc, &look, memory, picks)?;
    fill(
        alloc,
        &mut memory,
        program.globals.as_slice(),
        functions,
        globals,
    )?;
    Ok(Start {
        memory,
        functions: Vec::from_slice(alloc, functions)?,
        globals: Vec::from_slice(alloc, globals)?,
        cache,
        stack,
        count,
    })
}

/// The start of a run with these picks: functions and globals get storage, then the main function's return local, and last the bytes of the
/// globals are stored.
pub fn begin<'p>(alloc: Global, p: &'p Checked, picks: &[u64]) -> Result<Start<'p>, StartFault>
    ensures { BeginAnswer p.now picks.now result }
{
    let made = pieces(alloc, p.program())?;
    judge_start(alloc, made.as_slice(), picks)?;
    let last = made.len() - 1;
    let begun = place(alloc, &made[..last], &picks[..last])?;
    Ok(started(alloc, p, begun, picks)?)
}
