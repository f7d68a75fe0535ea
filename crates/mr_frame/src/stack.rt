//! The frames of a thread, and its payloads.
use crate::frame::{Frame, Next, next_of};
use crate::look::Look;
use mr_base::Pointer;
use std::alloc::{AllocError, Global};
use std::mem::replace;

/// The frames of a thread, of which the bottom one stands first below the top one, and its payloads, the last one last.
#[derive(Drop)]
pub struct Stack {
    pub(crate) top: Frame,
    pub(crate) below: Vec<Frame>,
    pub(crate) payloads: Vec<Pointer>,
}

/// Where a frame stands: its function, its block, and which statement of it comes next; behind the last one it is the terminator.
#[derive(Clone, Copy, Debug, PartialEq, Eq)]
pub struct At {
    pub function: u32,
    pub block: u32,
    pub at: usize,
}

impl Stack {
    /// Where the top frame stands.
    pub fn at(&self) -> At
        ensures { top_at (stack_of self.now).frames ≡ Some result }
    {
        At {
            function: self.top.function,
            block: self.top.block,
            at: self.top.at,
        }
    }

    ghost use Rattle.std.specs.Prelude.{◌≡◌, ◌∷◌, [], IsFalse, IsTrue, OnOk, Some, slice_get};
    ghost use Rattle.mr_frame.specs.Tops.{top_at};
    ghost use Rattle.mr_frame.specs.Calls.{behind_first};
    ghost use Rattle.mr_frame.specs.Fits.{FitsStack};
    ghost use Rattle.mr_frame.specs.Kept.{IsReady, below_of, frame_of, look_of, stack_of};
    ghost use Rattle.mr_frame.specs.Standing.{IsDue, due_in};

    // A bottom frame alone, without payloads.
    pub(crate) fn of(alloc: Global, top: Frame) -> Stack
        ensures { stack_of result ≡ record { frames = frame_of top ∷ []; payloads = [] } }
    {
        Stack {
            top,
            below: Vec::new(alloc),
            payloads: Vec::new(alloc),
        }
    }

    // A frame above the others.
    pub(crate) fn push(&mut self, frame: Frame) -> Result<(), AllocError>
        ensures { OnOk result
            (stack_of self.new ≡ record (stack_of self.old) { frames = frame_of frame ∷ (stack_of self.old).frames }) }
    {
        let caller = replace(&mut self.top, frame);
        self.below.push(caller)?;
        Ok(())
    }

    // The top frame goes, where there is one below it.
    pub(crate) fn pop(&mut self) -> bool
        ensures some { IsTrue result → (stack_of self.old).frames ≡ frame_of self.old.top ∷ (stack_of self.new).frames }
        ensures none { IsFalse result → below_of self.old ≡ [] }
        ensures payloads { (stack_of self.new).payloads ≡ (stack_of self.old).payloads }
    {
        match self.below.pop() {
            Some(caller) => {
                self.top = caller;
                true
            }
            None => false,
        }
    }

    // A payload joins the others.
    pub(crate) fn push_payload(&mut self, payload: Pointer) -> Result<(), AllocError>
        ensures { OnOk result
            (stack_of self.new ≡ record (stack_of self.old) { payloads = payload ∷ (stack_of self.old).payloads }) }
    {
        self.payloads.push(payload)?;
        Ok(())
    }

    // The last payload goes, where there is one.
    pub(crate) fn drop_payload(&mut self)
        ensures { stack_of self.new ≡ record (stack_of self.old) {
          payloads = behind_first
              (stack_of self.old).payloads;
        } }
    {
        self.payloads.pop();
    }

    // What is due at the top frame.
    pub(crate) fn due<'a>(&self, look: &Look<'a>) -> Next<'a>
        requires ready { IsReady look.now }
        requires fits { FitsStack look.now.program.now (stack_of self.now) }
        ensures { IsDue look.now self.now (due_in result) }
    {
        next_of(look.function(self.top.function), &self.top)
    }
}
