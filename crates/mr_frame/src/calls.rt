//! Calls: the place for the result, the callee and the arguments.
ghost use Rattle.std.specs.Prelude.{◌≡◌, ◌≤◌, ◌<◌, ◌^◌, Option, length, option_map, slice_get, Some};
ghost use Rattle.mr_base.specs.declared.reached.Reached.{Reached};
ghost use Rattle.mr_eval.specs.Answers.{Extends, seen};
ghost use Rattle.mr_eval.specs.Environment.{env_surround};
ghost use Rattle.mr_eval.specs.Reads.{Seen};
ghost use Rattle.mr_frame.specs.Calls.{callee_of, given_types, same_pointer};
ghost use Rattle.mr_frame.specs.Calling.{CallIn, GivenIn, Prepares, called, look_in, prepared};
ghost use Rattle.mr_ast.specs.declared.program.Function.{Function};
ghost use Rattle.mr_frame.specs.Inside.{InProgram};

use crate::fitting::is_fitting;
use crate::frame::function_at;
use crate::values::{pointer, values};
use mr_ast::{FnName, Place, Value};
use mr_base::{Pointer, Reason};
use mr_eval::{Env, Fault, Notes, place};
use mr_mem::Memory;
use mr_value::Val;
use std::alloc::Global;

/// A call that is prepared: the place for its result, the function, and the values of its arguments.
#[derive(Drop)]
pub struct Prepared {
    pub place: Pointer,
    pub function: FnName,
    pub args: Vec<Val>,
}

// Whether the two have one address and one provenance.
fn is_same(p: Pointer, q: Pointer) -> bool
    ensures { result ≡ same_pointer p q }
{
    p == q
}

/// The function that a pointer stands for; none where it is a pointer to no function. There are fewer than 2^32 of them.
pub fn callee(functions: &[Pointer], p: Pointer) -> Option<FnName>
    requires { length functions.now < 2 ^ 32 }
    ensures { option_map (λ f. f.0) result ≡ callee_of functions.now p }
{
    for (number, function) in functions.iter().enumerate() {
        if is_same(*function, p) {
            return Some(FnName(number as u32));
        }
    }
    None
}

/// What a call does before it needs a pick: the place, the callee and the arguments; then 117, and 118.
#[tactic(auto, using(crate::proofs::CallLaws::prepared_laws, mr_eval::proofs::ExtendsLaws::extends_laws))]
pub fn prepare<'a>(
    alloc: Global,
    e: &Env<'a>,
    m: &Memory,
    n: &mut Notes,
    written: &'a Value,
    args: &'a [Value],
    to: &'a Place,
) -> Result<Prepared, Fault>
    requires { CallIn e.now written.now args.now to.now }
    ensures given { Prepares e.now.program.now result
        (prepared m.now (look_in e.now) (env_surround e.now) written.now args.now to.now (seen n.old))
        (seen n.new) n.new.refused }
    ensures kept { Extends (seen n.old) (seen n.new) }
{
    let at = place(alloc, e, m, n, to)?;
    let function = pointer(alloc, e, m, n, written)?;
    let row = values(alloc, e, m, n, args)?;
    called(e, args, to, at, function, row)
}

// 117 where the pointer stands for no function, 118 where the function has other types.
fn called<'a>(
    e: &Env<'a>,
    args: &'a [Value],
    to: &'a Place,
    place: Pointer,
    function: Pointer,
    row: Vec<Val>,
) -> Result<Prepared, Fault>
    requires inside { (f : Function) × InProgram f e.now }
    requires call { GivenIn e.now args.now to.now }
    ensures { (s : Seen) (refused : Option Reached) → Prepares e.now.program.now result (called (look_in e.now)
        (given_types (env_surround e.now) to.now args.now) place row.items (callee_of e.now.functions.now function) s)
        s refused }
{
    let Some(function) = callee(e.functions, function) else {
        return Err(Fault::Undefined(Reason::NotAFunction));
    };
    if !is_fitting(e, args, to, function_at(e.program.program(), function.0)) {
        return Err(Fault::Undefined(Reason::SignatureMismatch));
    }
    Ok(Prepared {
        place,
        function,
        args: row,
    })
}
