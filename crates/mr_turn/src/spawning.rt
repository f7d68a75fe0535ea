//! The start of a thread.
ghost use Rattle.std.specs.Prelude.{◌≡◌, ◌<◌, List, Some, length, slice_get};
ghost use Rattle.mr_ast.specs.declared.program.Intrinsic.TheVariants as intrinsic;
ghost use Rattle.mr_ast.specs.declared.types.Ty.{Ty as TypeOf};
ghost use Rattle.mr_base.specs.declared.byte.Pointer.{Pointer as PointerOf};
ghost use Rattle.mr_value.specs.declared.val.Val.TheVariants as val;
ghost use Rattle.mr_frame.specs.Calling.{HasLocals};
ghost use Rattle.mr_frame.specs.Calls.{kept_types, local_type, same_types};
ghost use Rattle.mr_frame.specs.Operations.{DueDo};
ghost use Rattle.mr_start.specs.Steps.{thread_types};
ghost use Rattle.mr_turn.specs.Doing.{CanEnd, EndsDo, IsGiven, IsNewThread, SpawnsFunction, StartsThread, TakesDoStep, TakesDoTurn};

use crate::deed::{Deed, TurnFault};
use crate::judging::{met, stopped};
use mr_ast::{FnName, Function, LocalName, Ty};
use mr_base::{Event, Pointer, Reason};
use mr_eval::Scene;
use mr_frame::{DoCall, Flow, Look, Stack, callee};
use mr_intr::Creation;
use mr_sched::Ask;
use mr_sync::SyncTable;
use mr_typing::Known;
use mr_value::Val;
use sqlite_items::{Boxed, Items};
use std::alloc::Global;

// The type of a local.
fn type_of(f: &Function, x: LocalName) -> &Ty
    requires { x.0 < length f.now.locals }
    ensures { local_type f.now x ≡ Some result.now }
{
    &f.locals.as_slice()[x.0 as usize].ty
}

// Whether a thread may begin with a function: it gives the empty tuple, and takes a raw pointer.
pub fn begins_thread(alloc: Global, f: &Function) -> bool
    requires { HasLocals f.now }
    ensures { (types : List TypeOf) → kept_types f.now ≡ Some types → result ≡ same_types thread_types types }
{
    let args = f.args.as_slice();
    if args.len() != 1 {
        return false;
    }
    let unit = Ty::Tuple {
        size: 0,
        align: 1,
        fields: Items::new(alloc),
    };
    let gives = Known::Written(&unit).same(Known::Written(type_of(f, f.ret)));
    gives && Known::Written(&Ty::Raw).same(Known::Written(type_of(f, args[0])))
}

// The pointer that the first argument is.
pub fn callee_in(args: &[Val]) -> Pointer
    requires { (p : PointerOf) × (slice_get args.now 0 ≡ Some (val.Ptr p)) }
    ensures { slice_get args.now 0 ≡ Some (val.Ptr result) }
{
    match &args[0] {
        Val::Ptr(p) => *p,
        _ => unreachable!(),
    }
}

// The function of this name.
pub fn function_of<'a>(look: &Look<'a>, f: FnName) -> &'a Function
    requires { f.0 < length look.now.program.now.functions }
    ensures { slice_get look.now.program.now.functions f.0 ≡ Some result.now }
{
    &look.program.program().functions.as_slice()[f.0 as usize]
}

/// `spawn`: 117, 118; then 67, where there are as many threads as may be; then the picks for the new thread's first frame.
pub fn spawn(
    alloc: Global,
    look: &Look<'_>,
    stack: &mut Stack,
    s: &mut Scene,
    sync: &mut SyncTable,
    call: &DoCall,
    picks: &[u64],
) -> Result<Deed, TurnFault>
    requires { (d : DueDo) × IsGiven look.now stack.old s.old sync.old call.now d × (d.op ≡ intrinsic.Spawn) }
    ensures { TakesDoTurn look.now stack.old s.old sync.old call.now picks.now result stack.new s.new sync.new }
{
    match callee(look.functions, callee_in(call.args.as_slice())) {
        None => Err(stopped(Reason::NotAFunction, picks)),
        Some(f) => spawn_function(alloc, look, stack, s, sync, call, f, picks),
    }
}

// The start of a thread with this function: 118 and what comes behind it.
fn spawn_function(
    alloc: Global,
    look: &Look<'_>,
    stack: &mut Stack,
    s: &mut Scene,
    sync: &mut SyncTable,
    call: &DoCall,
    f: FnName,
    picks: &[u64],
) -> Result<Deed, TurnFault>
    requires { (d : DueDo) × SpawnsFunction look.now stack.old s.old sync.old call.now d f.0 }
    ensures { TakesDoTurn look.now stack.old s.old sync.old call.now picks.now result stack.new s.new sync.new }
{
    if !begins_thread(alloc, function_of(look, f)) {
        return Err(stopped(Reason::SignatureMismatch, picks));
    }
    let asks = [
        Ask::Address { size: 0, align: 1 },
        Ask::Address { size: 8, align: 8 },
    ];
    match met(s, sync, Creation::Thread, &asks, picks) {
        Err(fault) => Err(fault),
        Ok(()) => start(alloc, look, stack, s, sync, call, f, picks),
    }
}

// The new thread, whose picks are judged: its first frame, its number, and the store of this as the result.
fn start(
    alloc: Global,
    look: &Look<'_>,
    stack: &mut Stack,
    s: &mut Scene,
    sync: &mut SyncTable,
    call: &DoCall,
    f: FnName,
    picks: &[u64],
) -> Result<Deed, TurnFault>
    requires { (d : DueDo) × StartsThread look.now stack.old s.old sync.old call.now d f.0 picks.now }
    ensures { TakesDoStep look.now stack.old s.old sync.old call.now picks.now result stack.new s.new sync.new }
{
    let new = Stack::enter(alloc, look, s, f, &call.args.as_slice()[1..], picks)?;
    let number = sync.spawn()?;
    end_start(alloc, look, stack, s, call, new, number)
}

// The store of a new thread's number as the result.
fn end_start(
    alloc: Global,
    look: &Look<'_>,
    stack: &mut Stack,
    s: &mut Scene,
    call: &DoCall,
    new: Stack,
    number: u32,
) -> Result<Deed, TurnFault>
    requires { CanEnd look.now stack.old call.now (Some (val.Int number)) }
    ensures { EndsDo look.now stack.old s.old call.now (Some (val.Int number)) result stack.new s.new
        (IsNewThread new number) }
{
    match stack.finish(alloc, look, s, call, Some(&Val::Int(number as u128))) {
        Err(fault) => Err(TurnFault::from(fault)),
        Ok(()) => {
            let mut woken = Vec::new(alloc);
            woken.push(number)?;
            Ok(Deed {
                flow: Flow::Went,
                event: Event::Spawn(number),
                woken,
                started: Some(Boxed::new(alloc, new)?),
                text: None,
            })
        }
    }
}
