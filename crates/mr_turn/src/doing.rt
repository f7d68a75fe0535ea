//! The turn of a thread whose next step is an intrinsic.
ghost use Rattle.std.specs.Prelude.{◌≡◌, None, Some};
ghost use Rattle.mr_intr.specs.Effects.{IsOperation};
ghost use Rattle.mr_frame.specs.Kept.{look_of, stack_of};
ghost use Rattle.mr_frame.specs.Operations.{DueDo, next_do};
ghost use Rattle.mr_turn.specs.Doing.{CanAsk, CanEnd, EndsDo, IsDeed, IsGiven, IsNoted, IsTold, MeetsNeeds, TakesDoStep, TakesDoTurn, do_breaks};
ghost use Rattle.mr_turn.specs.Turning.{BeginsTurn, JudgeAnswer, TakesTurn, TellsDeed};

use crate::deed::{Deed, TurnFault};
use crate::judging::{judged, met, stopped};
use crate::spawning::spawn;
use mr_ast::Intrinsic;
use mr_base::{Event, Reason};
use mr_eval::{Fault, Scene};
use mr_frame::{DoCall, Flow, Look, Stack};
use mr_intr::{Effect, Needs, needs_of, operate};
use mr_sync::SyncTable;
use mr_value::Val;
use std::alloc::Global;

/// The turn of a thread whose next step is this intrinsic: what it is given comes first.
#[inline(never)]
pub fn do_turn(
    alloc: Global,
    look: &Look<'_>,
    stack: &mut Stack,
    s: &mut Scene,
    sync: &mut SyncTable,
    op: Intrinsic,
    picks: &[u64],
) -> Result<Deed, TurnFault>
    requires begins { BeginsTurn look.now stack.old s.old sync.old }
    requires due { (d : DueDo) × (next_do (look_of look.now) (stack_of stack.old) ≡ Some d) × (d.op ≡ op) }
    ensures { TakesTurn look.now stack.old s.old sync.old picks.now result stack.new s.new sync.new }
{
    match stack.arguments(alloc, look, &s.memory, &mut s.notes) {
        Err(Fault::Memory) => Err(TurnFault::Memory),
        Err(Fault::Undefined(reason)) => Err(stopped(reason, picks)),
        Ok(call) => {
            let answer = act(alloc, look, stack, s, sync, op, &call, picks);
            s.notes.spare_values = call.args;
            s.notes.spare_types = call.arg_types;
            answer
        }
    }
}

// The intrinsic with what it is given.
fn act(
    alloc: Global,
    look: &Look<'_>,
    stack: &mut Stack,
    s: &mut Scene,
    sync: &mut SyncTable,
    op: Intrinsic,
    call: &DoCall,
    picks: &[u64],
) -> Result<Deed, TurnFault>
    requires { (d : DueDo) × IsGiven look.now stack.old s.old sync.old call.now d × (d.op ≡ op) }
    ensures { TakesDoTurn look.now stack.old s.old sync.old call.now picks.now result stack.new s.new sync.new }
{
    match op {
        Intrinsic::Spawn => spawn(alloc, look, stack, s, sync, call, picks),
        Intrinsic::Payload => payload(alloc, look, stack, s, sync, call, picks),
        _ => operation(alloc, look, stack, s, sync, op, call, picks),
    }
}

// `payload`: the last one, which stays.
fn payload(
    alloc: Global,
    look: &Look<'_>,
    stack: &mut Stack,
    s: &mut Scene,
    sync: &SyncTable,
    call: &DoCall,
    picks: &[u64],
) -> Result<Deed, TurnFault>
    requires { (d : DueDo) × IsGiven look.now stack.old s.old sync.now call.now d × (d.op ≡ Intrinsic.Payload) }
    ensures { TakesDoTurn look.now stack.old s.old sync.now call.now picks.now result stack.new s.new sync.now }
{
    match stack.payload() {
        None => Err(stopped(Reason::NoPayload, picks)),
        Some(last) => match judged(s, sync, &[], picks) {
            Err(fault) => Err(fault),
            Ok(()) => end(alloc, look, stack, s, call, &Val::Ptr(last)),
        },
    }
}

// The end of an intrinsic with this result, which did nothing else.
fn end(
    alloc: Global,
    look: &Look<'_>,
    stack: &mut Stack,
    s: &mut Scene,
    call: &DoCall,
    value: &Val,
) -> Result<Deed, TurnFault>
    requires { CanEnd look.now stack.old call.now (Some value.now) }
    ensures { EndsDo look.now stack.old s.old call.now (Some value.now) result stack.new s.new IsNoted }
{
    match stack.finish(alloc, look, s, call, Some(value)) {
        Err(fault) => Err(TurnFault::from(fault)),
        Ok(()) => Ok(Deed {
            flow: Flow::Went,
            event: Event::Quiet,
            woken: Vec::new(alloc),
            started: None,
            text: None,
        }),
    }
}

// What an operation needs: what it creates, and a pick where it asks for one.
fn meets(s: &Scene, sync: &SyncTable, needs: Needs, picks: &[u64]) -> Result<(), TurnFault>
    requires { CanAsk s.now }
    ensures { JudgeAnswer result (MeetsNeeds s.now sync.now needs picks.now) }
{
    match needs.ask {
        None => met(s, sync, needs.creates, &[], picks),
        Some(ask) => met(s, sync, needs.creates, &[ask], picks),
    }
}

// An intrinsic that is an operation: what it needs, then what it does.
fn operation(
    alloc: Global,
    look: &Look<'_>,
    stack: &mut Stack,
    s: &mut Scene,
    sync: &mut SyncTable,
    op: Intrinsic,
    call: &DoCall,
    picks: &[u64],
) -> Result<Deed, TurnFault>
    requires given { (d : DueDo) × IsGiven look.now stack.old s.old sync.old call.now d × (d.op ≡ op) }
    requires kind { IsOperation op }
    ensures { TakesDoTurn look.now stack.old s.old sync.old call.now picks.now result stack.new s.new sync.new }
{
    match needs_of(op, call.args.as_slice(), sync, s.thread) {
        Err(reason) => Err(stopped(reason, picks)),
        Ok(needs) => match meets(s, sync, needs, picks) {
            Err(fault) => Err(fault),
            Ok(()) => carry_out(alloc, look, stack, s, sync, op, call, picks),
        },
    }
}

// An operation whose needs are met, and its end.
fn carry_out(
    alloc: Global,
    look: &Look<'_>,
    stack: &mut Stack,
    s: &mut Scene,
    sync: &mut SyncTable,
    op: Intrinsic,
    call: &DoCall,
    picks: &[u64],
) -> Result<Deed, TurnFault>
    requires given { (d : DueDo) × IsGiven look.now stack.old s.old sync.old call.now d × (d.op ≡ op)
        × (do_breaks look.now stack.old s.old sync.old call.now d picks.now ≡ None) }
    requires kind { IsOperation op }
    ensures { TakesDoStep look.now stack.old s.old sync.old call.now picks.now result stack.new s.new sync.new }
{
    let mut text = Vec::new(alloc);
    let (args, types) = (call.args.as_slice(), call.arg_types.as_slice());
    let place = call.result_type.as_ref();
    match operate(op, args, types, place, s, sync, &mut text, picks) {
        Err(fault) => Err(TurnFault::from(fault)),
        Ok(effect) => end_told(alloc, look, stack, s, call, op, effect, text),
    }
}

// The end of an operation that had this effect and printed this text.
fn end_told(
    alloc: Global,
    look: &Look<'_>,
    stack: &mut Stack,
    s: &mut Scene,
    call: &DoCall,
    op: Intrinsic,
    effect: Effect,
    text: Vec<u8>,
) -> Result<Deed, TurnFault>
    requires { CanEnd look.now stack.old call.now effect.value }
    ensures { EndsDo look.now stack.old s.old call.now effect.value result stack.new s.new
        (IsTold op effect text.items) }
{
    match stack.finish(alloc, look, s, call, effect.value.as_ref()) {
        Err(fault) => Err(TurnFault::from(fault)),
        Ok(()) => told(alloc, op, effect.event, effect.woken, text),
    }
}

// What an operation did, as a deed.
fn told(
    alloc: Global,
    op: Intrinsic,
    event: Event,
    awakened: Option<u32>,
    text: Vec<u8>,
) -> Result<Deed, TurnFault>
    ensures { TellsDeed result (IsDeed op event awakened text.items) }
{
    let mut woken = Vec::new(alloc);
    if let Some(thread) = awakened {
        woken.push(thread)?;
    }
    let text = match op {
        Intrinsic::Print => Some(text),
        _ => None,
    };
    Ok(Deed {
        flow: Flow::Went,
        event,
        woken,
        started: None,
        text,
    })
}
