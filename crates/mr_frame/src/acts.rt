//! The next step of a thread: what it asks for, and what it does.
ghost use Rattle.std.specs.Prelude.{◌≡◌, ◌++◌, ◌∷◌, [], IsTrue, List, OnErr, OnOk, Some};
ghost use Rattle.mr_ast.specs.declared.types.Ty.{Ty as TypeOf};
ghost use Rattle.mr_layout.specs.TypeOk.{TypeOk};
ghost use Rattle.mr_frame.specs.Acting.{NoCall, NoLive};
ghost use Rattle.mr_frame.specs.Beginning.{HasTypes};
ghost use Rattle.mr_frame.specs.Calls.{kept_types, storage_asks};
ghost use Rattle.mr_frame.specs.Sites.{NoDo};

use crate::begins::begin;
use crate::calls::{Prepared, prepare};
use crate::changes::change;
use crate::flow::Flow;
use crate::frame::{Next, local_at};
use crate::look::Look;
use crate::slot::Slot;
use crate::stack::Stack;
use crate::storage::{release, renew};
use crate::switches::switch;
use crate::types::{byte_align, byte_size};
use mr_ast::{BlockName, Function, LocalName, Num, Place, Stmt, Term, Ty, Value};
use mr_base::Reason;
use mr_eval::{Fault, Notes, Scene};
use mr_layout::Cache;
use mr_mem::Memory;
use mr_sched::Ask;
use std::alloc::{AllocError, Global};

// An address for storage of a type.
fn push_ask(c: &Cache, t: &Ty, out: &mut Vec<Ask>) -> Result<(), AllocError>
    requires { TypeOk t.now }
    ensures ok { OnOk result (out.new.items ≡ out.old.items ++ storage_asks (t.now ∷ [])) }
    ensures err { OnErr result (out.new.items ≡ out.old.items) }
{
    out.push(Ask::Address {
        size: byte_size(c, t),
        align: byte_align(c, t),
    })?;
    Ok(())
}

// An address for the return local, and for each argument.
fn push_asks(c: &Cache, function: &Function, out: &mut Vec<Ask>) -> Result<(), AllocError>
    requires { HasTypes function.now }
    ensures { (types : List TypeOf) → kept_types function.now ≡ Some types
        → OnOk result (out.new.items ≡ out.old.items ++ storage_asks types) }
{
    let names = function.args.as_slice();
    push_ask(c, &local_at(function, function.ret).ty, out)?;
    for x in names {
        push_ask(c, &local_at(function, *x).ty, out)?;
    }
    Ok(())
}

// Whether a statement isn't `live`.
fn is_no_live(stmt: &Stmt) -> bool
    ensures { IsTrue result → NoLive stmt.now }
{
    match stmt {
        Stmt::Live(_) => false,
        _ => true,
    }
}

// Whether a terminator is neither a call nor an intrinsic.
fn is_no_call(t: &Term) -> bool
    ensures operation { IsTrue result → NoDo t.now }
    ensures call { IsTrue result → NoCall t.now }
{
    match t {
        Term::Call(_, _, _, _, _) | Term::Do(_, _, _, _) => false,
        _ => true,
    }
}

impl Stack {
    ghost use Rattle.std.specs.Prelude.{◌≡◌, ◌++◌, ◌∷◌, ℕ, IsTrue, List, None, OnErr, OnOk, Some, slice_get};
    ghost use Rattle.mr_ast.specs.declared.program.Stmt.TheVariants as stmt;
    ghost use Rattle.mr_ast.specs.declared.program.Term.TheVariants as term;
    ghost use Rattle.mr_eval.specs.Answers.{seen};
    ghost use Rattle.mr_eval.specs.World.{TellsBy, world_of};
    ghost use Rattle.mr_frame.specs.Acting.{AreLawful, IsDueCall, IsQuiet, nothing_seen};
    ghost use Rattle.mr_frame.specs.Beginning.{CanBegin};
    ghost use Rattle.mr_frame.specs.Changes.{IsChange};
    ghost use Rattle.mr_frame.specs.Effects.{acted, asked, entered};
    ghost use Rattle.mr_frame.specs.Fits.{FitsStack};
    ghost use Rattle.mr_frame.specs.Calling.{Prepares, prepared};
    ghost use Rattle.mr_frame.specs.Frames.{GoesOn, scene_in};
    ghost use Rattle.mr_frame.specs.Kept.{IsReady, below_of, frame_of, look_of, onward_of, stack_of};
    ghost use Rattle.mr_frame.specs.Operations.{next_do};
    ghost use Rattle.mr_frame.specs.Sites.{AtStatement, AtTerminator, NoDo, due_term};
    ghost use Rattle.mr_ast.specs.declared.program.Function.{Function as FunctionOf};
    ghost use Rattle.mr_frame.specs.Standing.{Holds, IsDue, IsSlot};
    ghost use Rattle.mr_mem.specs.Memory.{Memory as MemoryOf};
    ghost use Rattle.mr_base.specs.Script.{Went, on};

    // What a local of the top frame has.
    fn slot(&self, look: &Look<'_>, x: LocalName) -> Slot
        requires { Holds look.now self.now x }
        ensures { (fn : FunctionOf) → slice_get look.now.program.now.functions self.now.top.function ≡ Some fn
            → IsSlot fn (frame_of self.now.top) x result }
    {
        let t = &local_at(look.function(self.top.function), x).ty;
        Slot {
            size: byte_size(look.cache, t),
            align: byte_align(look.cache, t),
            storage: self.top.storage_of(x.0),
        }
    }

    // `live`: the old storage goes, and there is new one at the picked address.
    fn live(
        &mut self,
        look: &Look<'_>,
        s: &mut Scene,
        x: LocalName,
        picks: &[u64],
    ) -> Result<Flow, Fault>
        requires due { IsDue look.now self.old (AtStatement (stmt.Live x)) }
        requires lawful { AreLawful (look_of look.now) (stack_of self.old) picks.now s.old }
        ensures { TellsBy (λ flow. onward_of flow (stack_of self.new)) result
            (acted (look_of look.now) s.old.thread (stack_of self.old) picks.now (world_of s.old))
            (world_of s.new) s.new.notes.refused }
    {
        let slot = self.slot(look, x);
        match renew(s, slot, picks[0]) {
            Err(fault) => Err(fault),
            Ok(p) => {
                self.top.set_storage(x.0, Some(p));
                self.top.step_on();
                Ok(Flow::Went)
            }
        }
    }

    // `dead`: the storage of a local goes, where it has some.
    fn dead(&mut self, look: &Look<'_>, s: &mut Scene, x: LocalName) -> Result<Flow, Fault>
        requires { IsDue look.now self.old (AtStatement (stmt.Dead x)) }
        ensures { (picks : List ℕ) → TellsBy (λ flow. onward_of flow (stack_of self.new)) result
            (acted (look_of look.now) s.old.thread (stack_of self.old) picks (world_of s.old))
            (world_of s.new) s.new.notes.refused }
    {
        let slot = self.slot(look, x);
        match release(s, slot.storage, slot.size, slot.align) {
            Err(fault) => Err(fault),
            Ok(()) => {
                self.top.set_storage(x.0, None);
                self.top.step_on();
                Ok(Flow::Went)
            }
        }
    }

    // A statement that changes memory alone.
    fn change(
        &mut self,
        alloc: Global,
        look: &Look<'_>,
        s: &mut Scene,
        stmt: &Stmt,
    ) -> Result<Flow, Fault>
        requires due { IsDue look.now self.old (AtStatement stmt.now) }
        requires kind { IsChange stmt.now }
        ensures { (picks : List ℕ) → TellsBy (λ flow. onward_of flow (stack_of self.new)) result
            (acted (look_of look.now) s.old.thread (stack_of self.old) picks (world_of s.old))
            (world_of s.new) s.new.notes.refused }
    {
        let env = look.env(&self.top);
        match change(alloc, &env, &mut s.memory, &mut s.notes, stmt) {
            Err(fault) => Err(fault),
            Ok(()) => {
                self.top.step_on();
                Ok(Flow::Went)
            }
        }
    }

    // `switch`: on to the block of the first case that fits.
    fn switch(
        &mut self,
        alloc: Global,
        look: &Look<'_>,
        s: &mut Scene,
        on: &Value,
        cases: &[(Num, BlockName)],
        other: BlockName,
    ) -> Result<Flow, Fault>
        requires { IsDue look.now self.old (AtTerminator (term.Switch on.now cases.now other)) }
        ensures { (picks : List ℕ) → TellsBy (λ flow. onward_of flow (stack_of self.new)) result
            (acted (look_of look.now) s.old.thread (stack_of self.old) picks (world_of s.old))
            (world_of s.new) s.new.notes.refused }
    {
        let env = look.env(&self.top);
        match switch(alloc, &env, &s.memory, &mut s.notes, on, cases, other) {
            Err(fault) => Err(fault),
            Ok(block) => {
                self.top.jump(block);
                Ok(Flow::Went)
            }
        }
    }

    // `call`: the place, the callee and the arguments; then the callee's frame.
    fn call<'p>(
        &mut self,
        alloc: Global,
        look: &Look<'p>,
        s: &mut Scene,
        callee: &'p Value,
        args: &'p [Value],
        place: &'p Place,
        picks: &[u64],
    ) -> Result<Flow, Fault>
        requires due { IsDueCall look.now self.old callee.now args.now place.now }
        requires lawful { AreLawful (look_of look.now) (stack_of self.old) picks.now s.old }
        ensures { TellsBy (λ flow. onward_of flow (stack_of self.new)) result
            (acted (look_of look.now) s.old.thread (stack_of self.old) picks.now (world_of s.old))
            (world_of s.new) s.new.notes.refused }
    {
        match self.prepared(alloc, look, &s.memory, &mut s.notes, callee, args, place) {
            Err(fault) => Err(fault),
            Ok(prepared) => self.enter_call(alloc, look, s, &prepared, picks),
        }
    }

    // What a call finds out before it needs a pick.
    fn prepared<'p>(
        &self,
        alloc: Global,
        look: &Look<'p>,
        m: &Memory,
        notes: &mut Notes,
        callee: &'p Value,
        args: &'p [Value],
        place: &'p Place,
    ) -> Result<Prepared, Fault>
        requires { IsDueCall look.now self.now callee.now args.now place.now }
        ensures { (fn : FunctionOf) → slice_get look.now.program.now.functions self.now.top.function ≡ Some fn
            → Prepares look.now.program.now result (prepared m.now (look_of look.now) (scene_in (look_of look.now) fn
            (frame_of self.now.top)) callee.now args.now place.now (seen notes.old))
            (seen notes.new) notes.new.refused }
    {
        let env = look.env(&self.top);
        prepare(alloc, &env, m, notes, callee, args, place)
    }

    // Behind the evaluations of a call: the callee's frame stands above the caller's, which keeps the place.
    fn enter_call(
        &mut self,
        alloc: Global,
        look: &Look<'_>,
        s: &mut Scene,
        prepared: &Prepared,
        picks: &[u64],
    ) -> Result<Flow, Fault>
        requires { CanBegin look.now prepared.now.function.0 prepared.now.args.items picks.now (world_of s.old) }
        ensures { TellsBy (λ flow. onward_of flow (stack_of self.new)) result
            (on (entered prepared.now.function.0
            (slice_get look.now.program.now.functions prepared.now.function.0) prepared.now.args.items picks.now
            (world_of s.old)) (λ f w. Went (GoesOn
            (record (stack_of self.old) {
              frames = f ∷ record
                  (frame_of self.old.top) { call = Some prepared.now.place } ∷ below_of self.old;
            })) w)) (world_of s.new) s.new.notes.refused }
    {
        let args = prepared.args.as_slice();
        match begin(alloc, look, s, prepared.function, args, picks) {
            Err(fault) => Err(fault),
            Ok(frame) => {
                self.top.keep_place(prepared.place);
                self.push(frame)?;
                Ok(Flow::Went)
            }
        }
    }

    // A terminator that is no intrinsic.
    fn end_block<'p>(
        &mut self,
        alloc: Global,
        look: &Look<'p>,
        s: &mut Scene,
        t: &'p Term,
        picks: &[u64],
    ) -> Result<Flow, Fault>
        requires due { IsDue look.now self.old (due_term t.now) }
        requires other { NoDo t.now }
        requires lawful { AreLawful (look_of look.now) (stack_of self.old) picks.now s.old }
        ensures { TellsBy (λ flow. onward_of flow (stack_of self.new)) result
            (acted (look_of look.now) s.old.thread (stack_of self.old) picks.now (world_of s.old))
            (world_of s.new) s.new.notes.refused }
    {
        match t {
            Term::Goto(b) => {
                self.top.jump(b.0);
                Ok(Flow::Went)
            }
            Term::Switch(on, cases, other) => {
                self.switch(alloc, look, s, on, cases.as_slice(), *other)
            }
            Term::Unreachable => Err(Fault::Undefined(Reason::Unreachable)),
            Term::Call(callee, args, place, _, _) => {
                let args = args.as_slice();
                self.call(alloc, look, s, callee, args, place, picks)
            }
            Term::Return => self.return_from(alloc, look, s),
            Term::Unwind(payload, b) => self.unwind(alloc, look, s, payload, *b),
            Term::Resume => self.resume(look, s),
            Term::Stop(b) => {
                self.drop_payload();
                self.top.jump(b.0);
                Ok(Flow::Went)
            }
            Term::Exit => Ok(Flow::Exit),
            Term::Abort => Ok(Flow::Abort),
            Term::Do(_, _, _, _) => unreachable!(),
        }
    }

    /// The next statement, or a terminator that is no intrinsic.
    ///
    /// The picks are lawful for what it asks. After `Err` neither the stack nor the scene is promised.
    pub fn act(
        &mut self,
        alloc: Global,
        look: &Look<'_>,
        s: &mut Scene,
        picks: &[u64],
    ) -> Result<Flow, Fault>
        requires ready { IsReady look.now }
        requires fits { FitsStack look.now.program.now (stack_of self.old) }
        requires other { next_do (look_of look.now) (stack_of self.old) ≡ None }
        requires lawful { AreLawful (look_of look.now) (stack_of self.old) picks.now s.old }
        ensures { TellsBy (λ flow. onward_of flow (stack_of self.new)) result
            (acted (look_of look.now) s.old.thread (stack_of self.old) picks.now (world_of s.old))
            (world_of s.new) s.new.notes.refused }
    {
        match self.due(look) {
            Next::Statement(Stmt::Live(x)) => self.live(look, s, *x, picks),
            Next::Statement(Stmt::Dead(x)) => self.dead(look, s, *x),
            Next::Statement(stmt) => self.change(alloc, look, s, stmt),
            Next::Terminator(t) => self.end_block(alloc, look, s, t, picks),
        }
    }

    /// Appends what the next step asks for, which is no intrinsic. An `Err` is for want of memory, and leaves `out` as it was.
    pub fn asks(
        &self,
        alloc: Global,
        look: &Look<'_>,
        m: &Memory,
        out: &mut Vec<Ask>,
    ) -> Result<(), AllocError>
        requires ready { IsReady look.now }
        requires fits { FitsStack look.now.program.now (stack_of self.now) }
        requires other { next_do (look_of look.now) (stack_of self.now) ≡ None }
        ensures ok { (thread : ℕ) → OnOk result
            (out.new.items ≡ out.old.items ++ asked m.now (look_of look.now) thread (stack_of self.now) nothing_seen) }
        ensures err { OnErr result (out.new.items ≡ out.old.items) }
    {
        match self.due(look) {
            Next::Statement(stmt) => self.statement_asks(look, stmt, out),
            Next::Terminator(t) => self.terminator_asks(alloc, look, m, t, out),
        }
    }

    /// Whether the next step is neither an intrinsic nor `live` nor a call: it asks for nothing then.
    pub fn is_quiet(&self, look: &Look<'_>) -> bool
        requires ready { IsReady look.now }
        requires fits { FitsStack look.now.program.now (stack_of self.now) }
        ensures { IsTrue result → IsQuiet (look_of look.now) (stack_of self.now) }
    {
        match self.due(look) {
            Next::Statement(stmt) => is_no_live(stmt),
            Next::Terminator(t) => is_no_call(t),
        }
    }

    // `live` asks for an address, and no other statement asks for anything.
    fn statement_asks(
        &self,
        look: &Look<'_>,
        stmt: &Stmt,
        out: &mut Vec<Ask>,
    ) -> Result<(), AllocError>
        requires { IsDue look.now self.now (AtStatement stmt.now) }
        ensures ok { (m : MemoryOf) → (thread : ℕ) → OnOk result
            (out.new.items ≡ out.old.items ++ asked m (look_of look.now) thread (stack_of self.now) nothing_seen) }
        ensures err { OnErr result (out.new.items ≡ out.old.items) }
    {
        match stmt {
            Stmt::Live(x) => {
                let function = look.function(self.top.function);
                push_ask(look.cache, &local_at(function, *x).ty, out)
            }
            _ => Ok(()),
        }
    }

    // Of the terminators that are no intrinsics, a call alone asks for anything.
    fn terminator_asks<'p>(
        &self,
        alloc: Global,
        look: &Look<'p>,
        m: &Memory,
        t: &'p Term,
        out: &mut Vec<Ask>,
    ) -> Result<(), AllocError>
        requires due { IsDue look.now self.now (due_term t.now) }
        requires other { NoDo t.now }
        ensures ok { (thread : ℕ) → OnOk result
            (out.new.items ≡ out.old.items ++ asked m.now (look_of look.now) thread (stack_of self.now) nothing_seen) }
        ensures err { OnErr result (out.new.items ≡ out.old.items) }
    {
        match t {
            Term::Call(callee, args, place, _, _) => {
                let args = args.as_slice();
                self.call_asks(alloc, look, m, callee, args, place, out)
            }
            _ => Ok(()),
        }
    }

    // What a call asks for: an address for the return local and for each argument, where it comes to that.
    fn call_asks<'p>(
        &self,
        alloc: Global,
        look: &Look<'p>,
        m: &Memory,
        callee: &'p Value,
        args: &'p [Value],
        place: &'p Place,
        out: &mut Vec<Ask>,
    ) -> Result<(), AllocError>
        requires { IsDueCall look.now self.now callee.now args.now place.now }
        ensures ok { (thread : ℕ) → OnOk result
            (out.new.items ≡ out.old.items ++ asked m.now (look_of look.now) thread (stack_of self.now) nothing_seen) }
        ensures err { OnErr result (out.new.items ≡ out.old.items) }
    {
        let mut notes = Notes::new(alloc);
        match self.prepared(alloc, look, m, &mut notes, callee, args, place) {
            Ok(prepared) => {
                let mut found = Vec::new(alloc);
                push_asks(look.cache, look.function(prepared.function.0), &mut found)?;
                out.extend_from_slice(found.as_slice())
            }
            Err(Fault::Undefined(_)) => Ok(()),
            Err(Fault::Memory) => Err(AllocError),
        }
    }
}
