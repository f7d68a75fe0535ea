//! The start of a thread: its bottom frame.
use crate::begins::begin;
use crate::look::Look;
use crate::stack::Stack;
use mr_ast::FnName;
use mr_eval::{Fault, Scene};
use mr_value::Val;
use std::alloc::{AllocError, Global};

impl Stack {
    ghost use Rattle.std.specs.Prelude.{IfOk, slice_get};
    ghost use Rattle.mr_eval.specs.World.{world_of};
    ghost use Rattle.mr_frame.specs.Beginning.{CanBegin, IsBottom};
    ghost use Rattle.mr_frame.specs.Effects.{entered};
    ghost use Rattle.mr_frame.specs.Kept.{stack_of};

    /// The stack of a thread that begins with a function and these arguments: its frame alone, without payloads.
    ///
    /// After `Err` the scene is not promised.
    pub fn enter(
        alloc: Global,
        look: &Look<'_>,
        s: &mut Scene,
        f: FnName,
        args: &[Val],
        picks: &[u64],
    ) -> Result<Stack, AllocError>
        requires { CanBegin look.now f.0 args.now picks.now (world_of s.old) }
        ensures { IfOk result (λ stack. IsBottom (entered f.0 (slice_get look.now.program.now.functions f.0)
            args.now picks.now (world_of s.old)) (stack_of stack) (world_of s.new)) }
    {
        match begin(alloc, look, s, f, args, picks) {
            Ok(frame) => Ok(Stack::of(alloc, frame)),
            Err(Fault::Memory) => Err(AllocError),
            Err(Fault::Undefined(_)) => unreachable!(),
        }
    }
}
