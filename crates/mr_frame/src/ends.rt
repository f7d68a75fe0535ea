//! How functions end: returns and unwinding.
ghost use Rattle.std.specs.Prelude.{◌≡◌, All, Some, length};
ghost use Rattle.mr_layout.specs.TypeOk.{TypeOk};
ghost use Rattle.mr_eval.specs.Environment.{Tells};
ghost use Rattle.mr_eval.specs.World.{world_of};
ghost use Rattle.mr_frame.specs.Calls.{Targets as TargetsOf, targets_of};
ghost use Rattle.mr_frame.specs.Ending.{freed_each, found_targets};
ghost use Rattle.mr_frame.specs.Kept.{IsReady, frame_of, look_of};

use crate::begins::store;
use crate::flow::Flow;
use crate::frame::{Frame, local_at};
use crate::look::Look;
use crate::stack::Stack;
use crate::storage::release;
use crate::types::{byte_align, byte_size};
use crate::values::pointer;
use mr_ast::{BlockName, Function, Local, Term, Ty, Value};
use mr_base::{Pointer, Reason};
use mr_eval::{Fault, Scene, load_typed};
use mr_layout::Cache;
use mr_value::Val;
use std::alloc::Global;

// The storage of each local goes, by rising number.
fn free_each(
    c: &Cache,
    s: &mut Scene,
    locals: &[Local],
    storage: &[Option<Pointer>],
) -> Result<(), Fault>
    requires types { All (λ l. TypeOk l.ty) locals.now }
    requires len { length locals.now ≡ length storage.now }
    ensures { Tells result (freed_each locals.now storage.now (world_of s.old)) (world_of s.new) s.new.notes.refused }
{
    for (k, local) in locals.iter().enumerate() {
        let t = &local.ty;
        match release(s, storage[k], byte_size(c, t), byte_align(c, t)) {
            Err(fault) => return Err(fault),
            Ok(()) => {}
        }
    }
    Ok(())
}

/// Where a caller's call goes on, behind a return and behind an unwinding.
#[derive(Clone, Copy)]
pub struct Targets {
    pub next: Option<BlockName>,
    pub unwind: Option<BlockName>,
}

// The targets of the call at which a frame stands.
fn targets_of_call(look: &Look<'_>, f: &Frame) -> Targets
    requires { (t : TargetsOf) × (targets_of (look_of look.now) (frame_of f.now) ≡ Some t) }
    ensures { targets_of (look_of look.now) (frame_of f.now) ≡ Some (found_targets result) }
{
    let block = &look.function(f.function).blocks.as_slice()[f.block as usize];
    match &block.term {
        Term::Call(_, _, _, next, unwind) => Targets {
            next: *next,
            unwind: *unwind,
        },
        _ => unreachable!(),
    }
}

impl Stack {
    ghost use Rattle.std.specs.Prelude.{◌≡◌, ℕ, IfOk, List, Some, slice_get, true};
    ghost use Rattle.mr_ast.specs.declared.program.Term.TheVariants as term;
    ghost use Rattle.mr_eval.specs.Answers.{seen};
    ghost use Rattle.mr_eval.specs.Environment.{Tells};
    ghost use Rattle.mr_eval.specs.World.{TellsBy, world_of};
    ghost use Rattle.mr_layout.specs.TypeOk.{TypeOk};
    ghost use Rattle.mr_value.specs.Shape.{has_shape};
    ghost use Rattle.mr_frame.specs.Effects.{acted};
    ghost use Rattle.mr_ast.specs.declared.types.Ty.{Ty as TypeOf};
    ghost use Rattle.mr_base.specs.Script.{on};
    ghost use Rattle.mr_frame.specs.Calls.{is_main, local_type};
    ghost use Rattle.mr_frame.specs.Ending.{freed_each, left_by, returned};
    ghost use Rattle.mr_frame.specs.Fits.{AreCalling};
    ghost use Rattle.mr_frame.specs.Kept.{IsReady, below_of, frame_of, look_of, onward_of, stack_of};
    ghost use Rattle.mr_frame.specs.Sites.{AtTerminator};
    ghost use Rattle.mr_frame.specs.Standing.{IsDue};

    // The value of the return local.
    fn return_value(
        &self,
        alloc: Global,
        look: &Look<'_>,
        s: &mut Scene,
        f: &Function,
    ) -> Result<Val, Fault>
        requires due { IsDue look.now self.now (AtTerminator term.Return) }
        requires function { slice_get look.now.program.now.functions self.now.top.function ≡ Some f.now }
        ensures given { Tells result (returned s.old.memory f.now (frame_of self.now.top) (seen s.old.notes))
            (seen s.new.notes) s.new.notes.refused }
        ensures shape { (t : TypeOf) → local_type f.now f.now.ret ≡ Some t → IfOk result (λ v. has_shape t v ≡ true) }
        ensures rest { s.new ≡ record s.old { notes = s.new.notes } }
    {
        let env = look.env(&self.top);
        match self.top.storage_of(f.ret.0) {
            Some(p) => load_typed(
                alloc,
                &env,
                &s.memory,
                &mut s.notes,
                p,
                &local_at(f, f.ret).ty,
            ),
            None => unreachable!(),
        }
    }

    // The frame below goes on with a value of a type, where there is one; otherwise the thread ends.
    fn give(
        &mut self,
        alloc: Global,
        look: &Look<'_>,
        s: &mut Scene,
        t: &Ty,
        v: &Val,
    ) -> Result<Flow, Fault>
        requires ready { IsReady look.now }
        requires calling { AreCalling look.now.program.now (Some t.now) (below_of self.old) }
        requires ok { TypeOk t.now }
        requires shape { has_shape t.now v.now ≡ true }
        ensures { TellsBy (λ flow. onward_of flow (stack_of self.new)) result (left_by (look_of look.now)
            (stack_of self.old) (Some t.now) v.now (below_of self.old) (world_of s.old))
            (world_of s.new) s.new.notes.refused }
    {
        if !self.pop() {
            return Ok(Flow::Ended);
        }
        let Some(block) = targets_of_call(look, &self.top).next else {
            return Err(Fault::Undefined(Reason::NoReturnBlock));
        };
        let Some(place) = self.top.call else {
            unreachable!()
        };
        match store(alloc, &look.env(&self.top), s, place, t, v) {
            Err(fault) => Err(fault),
            Ok(()) => {
                self.top.jump(block.0);
                Ok(Flow::Went)
            }
        }
    }

    // Whether the top frame is the bottom one of thread 0.
    #[tactic(auto, using(crate::proofs::StackLaws::main_is))]
    fn is_main(&self, thread: u32) -> bool
        ensures { result ≡ is_main thread (below_of self.now) }
    {
        thread == 0 && self.below.is_empty()
    }

    // `return`: 120 in the bottom frame of thread 0; else the return local is loaded, the storage of the locals goes, and the caller has
    // the value.
    pub(crate) fn return_from(
        &mut self,
        alloc: Global,
        look: &Look<'_>,
        s: &mut Scene,
    ) -> Result<Flow, Fault>
        requires { IsDue look.now self.old (AtTerminator term.Return) }
        ensures { (picks : List ℕ) → TellsBy (λ flow. onward_of flow (stack_of self.new)) result
            (acted (look_of look.now) s.old.thread (stack_of self.old) picks (world_of s.old))
            (world_of s.new) s.new.notes.refused }
    {
        if self.is_main(s.thread) {
            return Err(Fault::Undefined(Reason::MainReturned));
        }
        let f = look.function(self.top.function);
        match self.return_value(alloc, look, s, f) {
            Err(fault) => Err(fault),
            Ok(v) => self.leave(alloc, look, s, f, &v),
        }
    }

    // Behind the load of the return local.
    fn leave(
        &mut self,
        alloc: Global,
        look: &Look<'_>,
        s: &mut Scene,
        f: &Function,
        v: &Val,
    ) -> Result<Flow, Fault>
        requires due { IsDue look.now self.old (AtTerminator term.Return) }
        requires function { slice_get look.now.program.now.functions self.old.top.function ≡ Some f.now }
        requires shape { (t : TypeOf) → local_type f.now f.now.ret ≡ Some t → has_shape t v.now ≡ true }
        ensures { TellsBy (λ flow. onward_of flow (stack_of self.new)) result
            (on (freed_each f.now.locals self.old.top.locals.items (world_of s.old)) (λ u w. left_by (look_of look.now)
            (stack_of self.old) (local_type f.now f.now.ret) v.now (below_of self.old) w))
            (world_of s.new) s.new.notes.refused }
    {
        match free_each(
            look.cache,
            s,
            f.locals.as_slice(),
            self.top.locals.as_slice(),
        ) {
            Err(fault) => Err(fault),
            Ok(()) => self.give(alloc, look, s, &local_at(f, f.ret).ty, v),
        }
    }

    // `resume`: 122 in a bottom frame, 121 where the caller's call doesn't unwind.
    pub(crate) fn resume(&mut self, look: &Look<'_>, s: &mut Scene) -> Result<Flow, Fault>
        requires { IsDue look.now self.old (AtTerminator term.Resume) }
        ensures { (picks : List ℕ) → TellsBy (λ flow. onward_of flow (stack_of self.new)) result
            (acted (look_of look.now) s.old.thread (stack_of self.old) picks (world_of s.old))
            (world_of s.new) s.new.notes.refused }
    {
        let Some(caller) = self.below.last() else {
            return Err(Fault::Undefined(Reason::UnwoundThread));
        };
        let Some(block) = targets_of_call(look, caller).unwind else {
            return Err(Fault::Undefined(Reason::NoUnwindBlock));
        };
        let f = look.function(self.top.function);
        match free_each(
            look.cache,
            s,
            f.locals.as_slice(),
            self.top.locals.as_slice(),
        ) {
            Err(fault) => Err(fault),
            Ok(()) => {
                self.pop();
                self.top.jump(block.0);
                Ok(Flow::Went)
            }
        }
    }

    // `unwind`: the value joins the payloads.
    pub(crate) fn unwind(
        &mut self,
        alloc: Global,
        look: &Look<'_>,
        s: &mut Scene,
        payload: &Value,
        block: BlockName,
    ) -> Result<Flow, Fault>
        requires { IsDue look.now self.old (AtTerminator (term.Unwind payload.now block)) }
        ensures { (picks : List ℕ) → TellsBy (λ flow. onward_of flow (stack_of self.new)) result
            (acted (look_of look.now) s.old.thread (stack_of self.old) picks (world_of s.old))
            (world_of s.new) s.new.notes.refused }
    {
        let env = look.env(&self.top);
        match pointer(alloc, &env, &s.memory, &mut s.notes, payload) {
            Err(fault) => Err(fault),
            Ok(p) => {
                self.push_payload(p)?;
                self.top.jump(block.0);
                Ok(Flow::Went)
            }
        }
    }
}
