//! Intrinsics, as far as they are steps of a frame: what they are given, and how they end.
ghost use Rattle.std.specs.Prelude.{◌≡◌, All, IfOk, Option, Some, option_copied, true};
ghost use Rattle.mr_base.specs.declared.reached.Reached.{Reached};
ghost use Rattle.mr_eval.specs.Answers.{Extends, seen};
ghost use Rattle.mr_eval.specs.Environment.{Tells, env_surround};
ghost use Rattle.mr_eval.specs.World.{TellsBy, world_of};
ghost use Rattle.mr_typing.specs.Known.{ty_of};
ghost use Rattle.mr_frame.specs.Calling.{arg_types};
ghost use Rattle.mr_frame.specs.Doing.{FitsResult, PlainIn, ResultIn, given_operands, is_plain, operands_of, operation_in, result_placed, result_stored, result_typed, with_types};
ghost use Rattle.mr_eval.specs.Reads.{Seen};

use crate::begins::store;
use crate::frame::{Next, function_at, next_of};
use crate::look::Look;
use crate::stack::Stack;
use crate::types::{type_at, type_with};
use crate::values::values;
use mr_ast::{Intrinsic, Place, Term, Value};
use mr_base::Pointer;
use mr_eval::{Env, Fault, Notes, Plain, Scene, place};
use mr_mem::Memory;
use mr_typing::{Checked, Known};
use mr_value::Val;
use std::alloc::{AllocError, Global};
use std::mem::replace;

/// What an intrinsic is given: the place for its result and the type of this, and the arguments with their types.
#[derive(Drop)]
pub struct DoCall {
    pub result: Option<Pointer>,
    pub result_type: Option<Plain>,
    pub args: Vec<Val>,
    pub arg_types: Vec<Plain>,
}

// A type that holds no other.
#[tactic(auto, using(crate::proofs::PlainLaws::plain_laws))]
fn plain(t: Known<'_>) -> Plain
    requires { is_plain (ty_of t) ≡ true }
    ensures { result ≡ ty_of t.entry }
{
    if let Some(int) = t.integer() {
        return Plain::int(int);
    }
    if t.is_bool() {
        return Plain::bool();
    }
    if t.is_raw() {
        Plain::raw()
    } else {
        Plain::fn_ptr()
    }
}

// The types of arguments, in place of what a spare list holds.
fn types<'a>(e: &Env<'a>, args: &'a [Value], spare: Vec<Plain>) -> Result<Vec<Plain>, AllocError>
    requires { All (PlainIn e.now) args.now }
    ensures { IfOk result (λ ts. arg_types (env_surround e.now) args.now ≡ Some ts.items) }
{
    let mut types = spare;
    types.clear();
    for arg in args {
        types.push(plain(type_with(e, arg)))?;
    }
    Ok(types)
}

// The type of the place for a result, where there is one.
fn result_type<'a>(e: &Env<'a>, place: Option<&'a Place>) -> Option<Plain>
    requires { ResultIn e.now (option_copied place) }
    ensures { result_typed (env_surround e.now) (option_copied place.entry) ≡ Some result }
{
    match place {
        Some(place) => Some(plain(Known::Written(type_at(e, place)))),
        None => None,
    }
}

// The place for a result, where there is one.
#[tactic(auto, using(mr_eval::proofs::ExtendsLaws::extends_laws))]
fn result_place(
    alloc: Global,
    e: &Env<'_>,
    m: &Memory,
    n: &mut Notes,
    at: Option<&Place>,
) -> Result<Option<Pointer>, Fault>
    requires { ResultIn e.now (option_copied at) }
    ensures given { Tells result (result_placed m.now (env_surround e.now) (option_copied at.entry) (seen n.old))
        (seen n.new) n.new.refused }
    ensures kept { Extends (seen n.old) (seen n.new) }
{
    match at {
        Some(at) => Ok(Some(place(alloc, e, m, n, at)?)),
        None => Ok(None),
    }
}

// The place for the result, and then the arguments from left to right.
#[tactic(auto, using(crate::proofs::DoLaws::operand_laws, mr_eval::proofs::ExtendsLaws::extends_laws))]
fn operands<'a>(
    alloc: Global,
    e: &Env<'a>,
    m: &Memory,
    n: &mut Notes,
    args: &'a [Value],
    place: Option<&'a Place>,
) -> Result<DoCall, Fault>
    requires args { All (PlainIn e.now) args.now }
    requires place { ResultIn e.now (option_copied place) }
    ensures given { TellsBy operands_of result
        (given_operands m.now (env_surround e.now) args.now (option_copied place.entry) (seen n.old))
        (seen n.new) n.new.refused }
    ensures kept { Extends (seen n.old) (seen n.new) }
{
    let at = result_place(alloc, e, m, n, place)?;
    let row = values(alloc, e, m, n, args)?;
    let spare = replace(&mut n.spare_types, Vec::new(alloc));
    typed(e, args, place, at, row, spare)
}

// The types beside what was evaluated.
fn typed<'a>(
    e: &Env<'a>,
    args: &'a [Value],
    place: Option<&'a Place>,
    at: Option<Pointer>,
    row: Vec<Val>,
    spare: Vec<Plain>,
) -> Result<DoCall, Fault>
    requires args { All (PlainIn e.now) args.now }
    requires place { ResultIn e.now (option_copied place) }
    ensures { (s : Seen) (refused : Option Reached) → TellsBy operands_of result (with_types at row.items
        (result_typed (env_surround e.now) (option_copied place.entry)) (arg_types (env_surround e.now) args.now) s)
        s refused }
{
    match types(e, args, spare) {
        Ok(arg_types) => Ok(DoCall {
            result: at,
            result_type: result_type(e, place),
            args: row,
            arg_types,
        }),
        Err(_) => Err(Fault::Memory),
    }
}

// The store of a result, where there is a place for it.
fn store_result(
    alloc: Global,
    e: &Env<'_>,
    s: &mut Scene,
    call: &DoCall,
    value: Option<&Val>,
) -> Result<(), Fault>
    requires { FitsResult call.now.result call.now.result_type (option_copied value) }
    ensures { Tells result (result_stored call.now.result call.now.result_type
        (option_copied value.entry) (world_of s.old)) (world_of s.new) s.new.notes.refused }
{
    match (call.result, &call.result_type, value) {
        (Some(p), Some(t), Some(v)) => store(alloc, e, s, p, &t.ty(), v),
        _ => Ok(()),
    }
}

// The operation of an intrinsic; none of another terminator.
fn operation(t: &Term) -> Option<Intrinsic>
    ensures { result ≡ operation_in t.now }
{
    match t {
        Term::Do(op, _, _, _) => Some(*op),
        _ => None,
    }
}

impl Stack {
    ghost use Rattle.std.specs.Prelude.{◌≡◌, List, Some, option_copied, slice_get};
    ghost use Rattle.std.specs.Option.{option_map};
    ghost use Rattle.mr_base.specs.declared.byte.Pointer.{Pointer as PointerOf};
    ghost use Rattle.mr_eval.specs.Answers.{Extends, seen};
    ghost use Rattle.mr_eval.specs.World.{TellsBy, world_of};
    ghost use Rattle.mr_frame.specs.Doing.{FitsResult, operands_of};
    ghost use Rattle.mr_frame.specs.Effects.{argued, finished};
    ghost use Rattle.mr_frame.specs.Fits.{FitsStack};
    ghost use Rattle.mr_frame.specs.Kept.{IsReady, look_of, stack_of};
    ghost use Rattle.mr_frame.specs.Operations.{DueDo, next_do};
    ghost use Rattle.mr_frame.specs.Sites.{due_term};
    ghost use Rattle.mr_frame.specs.Standing.{IsDue};
    ghost use Rattle.mr_ast.specs.declared.program.Term.TheVariants as term;

    /// The intrinsic that is due, if one is.
    pub fn intrinsic(&self, program: &Checked) -> Option<Intrinsic>
        requires { FitsStack program.now (stack_of self.now) }
        ensures { (functions globals : List PointerOf) → result ≡ option_map (λ d. d.op)
            (next_do (record { program = program.now; functions = functions; globals = globals }) (stack_of self.now)) }
    {
        let function = function_at(program.program(), self.top.function);
        match next_of(function, &self.top) {
            Next::Statement(_) => None,
            Next::Terminator(t) => operation(t),
        }
    }

    // The terminator of the intrinsic that is due.
    fn due_do<'a>(&self, look: &Look<'a>) -> &'a Term
        requires ready { IsReady look.now }
        requires fits { FitsStack look.now.program.now (stack_of self.now) }
        requires due { (d : DueDo) × (next_do (look_of look.now) (stack_of self.now) ≡ Some d) }
        ensures due { IsDue look.now self.now (due_term result.now) }
        ensures is { (d : DueDo) → next_do (look_of look.now) (stack_of self.now) ≡ Some d
            → result.now ≡ term.Do d.op d.args d.place d.next }
    {
        match self.due(look) {
            Next::Statement(_) => unreachable!(),
            Next::Terminator(t) => t,
        }
    }

    /// What the intrinsic that is due is given: the place for its result, and then its arguments from left to right.
    ///
    /// After `Err` the notes begin with what they held.
    pub fn arguments(
        &self,
        alloc: Global,
        look: &Look<'_>,
        m: &Memory,
        notes: &mut Notes,
    ) -> Result<DoCall, Fault>
        requires ready { IsReady look.now }
        requires fits { FitsStack look.now.program.now (stack_of self.now) }
        requires due { (d : DueDo) × (next_do (look_of look.now) (stack_of self.now) ≡ Some d) }
        ensures given { (d : DueDo) → next_do (look_of look.now) (stack_of self.now) ≡ Some d
            → TellsBy operands_of result (argued m.now (look_of look.now) d (seen notes.old))
            (seen notes.new) notes.new.refused }
        ensures kept { Extends (seen notes.old) (seen notes.new) }
    {
        let Term::Do(_, args, place, _) = self.due_do(look) else {
            unreachable!()
        };
        let env = look.env(&self.top);
        operands(alloc, &env, m, notes, args.as_slice(), place.as_ref())
    }

    /// The end of the intrinsic that is due: its value is stored where there is a place for it, and the thread goes on at the block behind.
    ///
    /// After `Err` neither the stack nor the scene is promised.
    pub fn finish(
        &mut self,
        alloc: Global,
        look: &Look<'_>,
        s: &mut Scene,
        call: &DoCall,
        value: Option<&Val>,
    ) -> Result<(), Fault>
        requires ready { IsReady look.now }
        requires fits { FitsStack look.now.program.now (stack_of self.old) }
        requires due { (d : DueDo) × (next_do (look_of look.now) (stack_of self.old) ≡ Some d) }
        requires result { FitsResult call.now.result call.now.result_type (option_copied value) }
        ensures { (d : DueDo) → next_do (look_of look.now) (stack_of self.old) ≡ Some d
            → TellsBy (λ u. stack_of self.new) result (finished (stack_of self.old) d
            (operands_of call.now) (option_copied value.entry) (world_of s.old)) (world_of s.new) s.new.notes.refused }
    {
        let Term::Do(_, _, _, next) = self.due_do(look) else {
            unreachable!()
        };
        match store_result(alloc, &look.env(&self.top), s, call, value) {
            Err(fault) => Err(fault),
            Ok(()) => {
                self.top.jump(next.0);
                Ok(())
            }
        }
    }

    /// The last payload; none where there is none.
    pub fn payload(&self) -> Option<Pointer>
        ensures { result ≡ slice_get (stack_of self.now).payloads 0 }
    {
        self.payloads.last().copied()
    }
}
