//! A frame, and what stands next in it.
ghost use Rattle.std.specs.Prelude.{◌≡◌, ◌<◌, Some, length, slice_get};
ghost use Rattle.mr_ast.specs.declared.program.Block.{Block};
ghost use Rattle.mr_ast.specs.declared.program.Program.{Program as ProgramOf};
ghost use Rattle.mr_frame.specs.Fits.{FitsFrame};
ghost use Rattle.mr_frame.specs.Kept.{frame_of};
ghost use Rattle.mr_frame.specs.Standing.{IsAt};

use mr_ast::{Function, Local, LocalName, Program, Stmt, Term};
use mr_base::Pointer;

/// A function at work: the storage of each local, the block and position at which it goes on, and, while it stands at a call, the place for
/// the result.
#[derive(Drop)]
pub struct Frame {
    pub(crate) function: u32,
    pub(crate) locals: Vec<Option<Pointer>>,
    pub(crate) block: u32,
    pub(crate) at: usize,
    pub(crate) call: Option<Pointer>,
}

/// What a frame does next.
#[derive(Clone, Copy)]
pub enum Next<'p> {
    Statement(&'p Stmt),
    Terminator(&'p Term),
}

impl Frame {
    ghost use Rattle.std.specs.Prelude.{◌≡◌, ◌+◌, ◌<◌, ◌^◌, Some, length, slice_get};
    ghost use Rattle.mr_frame.specs.Frames.{at_block, behind_stmt, with_storage};
    ghost use Rattle.mr_frame.specs.Kept.{frame_of};

    // The storage of a local.
    pub(crate) fn storage_of(&self, local: u32) -> Option<Pointer>
        requires { local < length self.now.locals.items }
        ensures { slice_get self.now.locals.items local ≡ Some result }
    {
        self.locals[local as usize]
    }

    // A local has this storage, or none.
    pub(crate) fn set_storage(&mut self, local: u32, storage: Option<Pointer>)
        requires { local < length self.old.locals.items }
        ensures { frame_of self.new ≡ with_storage (frame_of self.old) local storage }
    {
        self.locals[local as usize] = storage;
    }

    // To the next statement.
    pub(crate) fn step_on(&mut self)
        requires { self.old.at + 1 < 2 ^ 64 }
        ensures { frame_of self.new ≡ behind_stmt (frame_of self.old) }
    {
        self.at += 1;
    }

    // To the start of a block, at no call.
    pub(crate) fn jump(&mut self, block: u32)
        ensures { frame_of self.new ≡ at_block (frame_of self.old) block }
    {
        self.block = block;
        self.at = 0;
        self.call = None;
    }

    // At a call whose result goes to this place.
    pub(crate) fn keep_place(&mut self, place: Pointer)
        ensures { frame_of self.new ≡ record (frame_of self.old) { call = Some place } }
    {
        self.call = Some(place);
    }
}

/// The function of this number.
pub fn function_at(p: &Program, number: u32) -> &Function
    requires { number < length p.now.functions }
    ensures { slice_get p.now.functions number ≡ Some result.now }
{
    &p.functions.as_slice()[number as usize]
}

/// The local of this name.
pub fn local_at(f: &Function, x: LocalName) -> &Local
    requires { x.0 < length f.now.locals }
    ensures { slice_get f.now.locals x.0 ≡ Some result.now }
{
    &f.locals.as_slice()[x.0 as usize]
}

/// What a frame of the function does next.
pub fn next_of<'p>(f: &'p Function, frame: &Frame) -> Next<'p>
    requires { (p : ProgramOf) × (h : FitsFrame p (frame_of frame.now)) × (h.function ≡ f.now) }
    ensures { (b : Block) → slice_get f.now.blocks frame.now.block ≡ Some b → IsAt b frame.now.at result }
{
    let block = &f.blocks.as_slice()[frame.block as usize];
    match block.stmts.as_slice().get(frame.at) {
        Some(stmt) => Next::Statement(stmt),
        None => Next::Terminator(&block.term),
    }
}
