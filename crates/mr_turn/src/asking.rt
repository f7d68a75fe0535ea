//! What the next step of a thread asks for.
ghost use Rattle.std.specs.Prelude.{◌≡◌, ◌++◌, OnErr, OnOk, Option, Some};
ghost use Rattle.mr_ast.specs.declared.program.Intrinsic.TheVariants as intrinsic;
ghost use Rattle.mr_frame.specs.Fits.{FitsStack};
ghost use Rattle.mr_frame.specs.Kept.{IsReady, look_of, stack_of};
ghost use Rattle.mr_frame.specs.Operations.{DueDo, next_do};
ghost use Rattle.mr_intr.specs.Effects.{IsOperation};
ghost use Rattle.mr_intr.specs.Needs.{asks_of};
ghost use Rattle.mr_turn.specs.Asking.{AsksDo, AsksFunction, AsksStep, IsAsked, may_ask};

use crate::judging::over_limit;
use crate::spawning::{begins_thread, callee_in, function_of};
use mr_ast::{FnName, Intrinsic};
use mr_eval::{Fault, Notes};
use mr_frame::{DoCall, Look, Stack, callee};
use mr_intr::{Creation, needs_of};
use mr_mem::Memory;
use mr_sched::Ask;
use mr_sync::SyncTable;
use std::alloc::{AllocError, Global};

// Appends the one, where there is one.
fn push_ask(ask: Option<Ask>, out: &mut Vec<Ask>) -> Result<(), AllocError>
    ensures ok { OnOk result (out.new.items ≡ out.old.items ++ asks_of ask) }
    ensures err { OnErr result (out.new.items ≡ out.old.items) }
{
    if let Some(ask) = ask {
        out.push(ask)?;
    }
    Ok(())
}

// An intrinsic that is an operation.
fn operation_asks(
    look: &Look<'_>,
    stack: &Stack,
    sync: &SyncTable,
    thread: u32,
    op: Intrinsic,
    call: &DoCall,
    out: &mut Vec<Ask>,
) -> Result<Option<u8>, AllocError>
    requires given { (d : DueDo) × IsAsked look.now stack.now call.now d × (d.op ≡ op) }
    requires kind { IsOperation op }
    ensures { AsksDo look.now stack.now sync.now call.now thread out.old.items out.new.items result }
{
    match needs_of(op, call.args.as_slice(), sync, thread) {
        Err(_) => Ok(None),
        Ok(needs) => {
            push_ask(needs.ask, out)?;
            Ok(over_limit(needs.creates, sync))
        }
    }
}

// The start of a thread with this function.
fn start_asks(
    alloc: Global,
    look: &Look<'_>,
    stack: &Stack,
    sync: &SyncTable,
    thread: u32,
    call: &DoCall,
    f: FnName,
    out: &mut Vec<Ask>,
) -> Result<Option<u8>, AllocError>
    requires { (d : DueDo) × AsksFunction look.now stack.now call.now d f.0 }
    ensures { AsksDo look.now stack.now sync.now call.now thread out.old.items out.new.items result }
{
    if !begins_thread(alloc, function_of(look, f)) {
        return Ok(None);
    }
    let addresses = [
        Ask::Address { size: 0, align: 1 },
        Ask::Address { size: 8, align: 8 },
    ];
    out.extend_from_slice(&addresses)?;
    Ok(over_limit(Creation::Thread, sync))
}

// `spawn`.
fn spawn_asks(
    alloc: Global,
    look: &Look<'_>,
    stack: &Stack,
    sync: &SyncTable,
    thread: u32,
    call: &DoCall,
    out: &mut Vec<Ask>,
) -> Result<Option<u8>, AllocError>
    requires { (d : DueDo) × IsAsked look.now stack.now call.now d × (d.op ≡ intrinsic.Spawn) }
    ensures { AsksDo look.now stack.now sync.now call.now thread out.old.items out.new.items result }
{
    match callee(look.functions, callee_in(call.args.as_slice())) {
        None => Ok(None),
        Some(f) => start_asks(alloc, look, stack, sync, thread, call, f, out),
    }
}

// The intrinsic with what it is given; `payload` asks for nothing.
fn given_asks(
    alloc: Global,
    look: &Look<'_>,
    stack: &Stack,
    sync: &SyncTable,
    thread: u32,
    op: Intrinsic,
    call: &DoCall,
    out: &mut Vec<Ask>,
) -> Result<Option<u8>, AllocError>
    requires { (d : DueDo) × IsAsked look.now stack.now call.now d × (d.op ≡ op) }
    ensures { AsksDo look.now stack.now sync.now call.now thread out.old.items out.new.items result }
{
    match op {
        Intrinsic::Spawn => spawn_asks(alloc, look, stack, sync, thread, call, out),
        Intrinsic::Payload => Ok(None),
        _ => operation_asks(look, stack, sync, thread, op, call, out),
    }
}

// Whether an intrinsic may ask for a pick or create something.
fn may_ask(op: Intrinsic) -> bool
    ensures { result ≡ may_ask op }
{
    match op {
        Intrinsic::Allocate | Intrinsic::Release | Intrinsic::CreateLock | Intrinsic::Spawn => true,
        _ => false,
    }
}

// An intrinsic: what it is given comes first, where it may ask for something by that.
fn do_asks(
    alloc: Global,
    look: &Look<'_>,
    stack: &Stack,
    m: &Memory,
    sync: &SyncTable,
    thread: u32,
    op: Intrinsic,
    out: &mut Vec<Ask>,
) -> Result<Option<u8>, AllocError>
    requires ready { IsReady look.now }
    requires fits { FitsStack look.now.program.now (stack_of stack.now) }
    requires due { (d : DueDo) × (next_do (look_of look.now) (stack_of stack.now) ≡ Some d) × (d.op ≡ op) }
    ensures { AsksStep look.now stack.now m.now sync.now thread out.old.items out.new.items result }
{
    if !may_ask(op) {
        return Ok(None);
    }
    let mut notes = Notes::new(alloc);
    match stack.arguments(alloc, look, m, &mut notes) {
        Err(Fault::Memory) => Err(AllocError),
        Err(Fault::Undefined(_)) => Ok(None),
        Ok(call) => given_asks(alloc, look, stack, sync, thread, op, &call, out),
    }
}

/// Appends what the next step of an enabled thread asks for. The answer is 67 or 68 where the step would create a thread or
/// a lock, and there are as many as may be. An `Err` is for want of memory, and leaves `out` as it was.
pub fn asks(
    alloc: Global,
    look: &Look<'_>,
    stack: &Stack,
    m: &Memory,
    sync: &SyncTable,
    thread: u32,
    out: &mut Vec<Ask>,
) -> Result<Option<u8>, AllocError>
    requires ready { IsReady look.now }
    requires fits { FitsStack look.now.program.now (stack_of stack.now) }
    ensures { AsksStep look.now stack.now m.now sync.now thread out.old.items out.new.items result }
{
    match stack.intrinsic(look.program) {
        None => {
            stack.asks(alloc, look, m, out)?;
            Ok(None)
        }
        Some(op) => do_asks(alloc, look, stack, m, sync, thread, op, out),
    }
}
