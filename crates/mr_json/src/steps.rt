//! The steps of a run, as they stand in its JSON.
ghost use Rattle.std.specs.Prelude.{◌≡◌, IfOk, option_copied, slice_get};
ghost use Rattle.mr_listing.specs.Seen.{seen};
ghost use Rattle.mr_listing.specs.Steps.{printed_by};
ghost use Rattle.mr_json.specs.Steps.{acquire_word, deed_data, did_data, event_data, join_word, line_data, lines_data};
ghost use Rattle.mr_json.specs.Steps.{release_word, started_data, step_data, woken_data};
ghost use Rattle.serde_json.specs.View.{view};

use crate::OutOfMemory;
use crate::accesses::accesses;
use crate::parts::{number, place};
use mr_ast::Program;
use mr_base::{Event, Status};
use mr_event::Footprint;
use mr_labels::{Stand, ToldStep, function_word};
use mr_listing::{Shown, StepValues};
use mr_report::Line;
use serde_json::{Value, json};
use std::alloc::Global;

fn line(alloc: Global, line: &Line) -> Result<Value, OutOfMemory>
    ensures { IfOk result (λ v. view v ≡ line_data line.now) }
{
    let text = String::from_utf8_lossy(alloc, line.text.as_slice())?;
    json!(in alloc; { "text": text, "thread": line.thread })
}

// Prints, in their order.
pub(crate) fn lines(alloc: Global, lines: &[Line]) -> Result<Value, OutOfMemory>
    ensures { IfOk result (λ v. view v ≡ lines_data lines.now) }
{
    let mut list = Vec::new(alloc);
    for print in lines {
        list.push(line(alloc, print)?)?;
    }
    Ok(Value::Array(list))
}

// The prints of a step.
fn printed_by<'a>(lines: &'a [Line], told: &ToldStep) -> &'a [Line]
    ensures { result.now ≡ printed_by lines.now told.now }
{
    if told.prints_behind < told.prints_before {
        return &[];
    }
    if lines.len() < told.prints_behind {
        return &[];
    }
    &lines[told.prints_before..told.prints_behind]
}

// What an acquire came to: the lock was taken, or the thread waits for it.
fn acquire_word(status: Option<Status>) -> &'static str
    ensures { result.now ≡ acquire_word status }
{
    match status {
        Some(Status::OnLock(_)) => "waits for lock",
        _ => "takes lock",
    }
}

// What a join came to: the thread had ended, or its end is waited for.
fn join_word(status: Option<Status>) -> &'static str
    ensures { result.now ≡ join_word status }
{
    match status {
        Some(Status::OnJoin(_)) => "waits for thread",
        _ => "joins thread",
    }
}

// What a release came to: a thread that waits got the lock, or it is free.
fn release_word(woken: &[u32]) -> &'static str
    ensures { result.now ≡ release_word woken.now }
{
    if woken.is_empty() {
        "frees lock"
    } else {
        "gives lock"
    }
}

fn deed(alloc: Global, word: &str, n: u32) -> Result<Value, OutOfMemory>
    ensures { IfOk result (λ v. view v ≡ deed_data word.now n) }
{
    json!(in alloc; { "deed": word, "number": n })
}

// What a step did to a lock or to another thread, which woke these.
fn event(alloc: Global, told: &ToldStep, event: Event, woken: &[u32]) -> Result<Value, OutOfMemory>
    ensures { IfOk result (λ v. view v ≡ event_data told.now event woken.now) }
{
    match event {
        Event::Quiet => Ok(Value::Null),
        Event::CreateLock(lock) => deed(alloc, "creates lock", lock),
        Event::Acquire(lock) => deed(alloc, acquire_word(told.status), lock),
        Event::Release(lock) => deed(alloc, release_word(woken), lock),
        Event::Spawn(thread) => deed(alloc, "starts thread", thread),
        Event::Join(thread) => deed(alloc, join_word(told.status), thread),
    }
}

// The function in which a thread was started, where one was.
fn started(alloc: Global, p: &Program, stand: Option<Stand>) -> Result<Value, OutOfMemory>
    ensures { IfOk result (λ v. view v ≡ started_data p.now stand) }
{
    match stand {
        Some(stand) => Value::try_from_str(alloc, function_word(p, stand.function)),
        None => Ok(Value::Null),
    }
}

// The threads that a step woke.
fn woken(alloc: Global, woken: &[u32]) -> Result<Value, OutOfMemory>
    ensures { IfOk result (λ v. view v ≡ woken_data woken.now) }
{
    let mut list = Vec::new(alloc);
    for thread in woken {
        list.push(Value::from(*thread))?;
    }
    Ok(Value::Array(list))
}

// What a step with these values did, by its footprint; null where it did not complete.
fn did(
    alloc: Global,
    shown: &Shown<'_>,
    values: Option<&StepValues>,
    told: &ToldStep,
    foot: Option<&Footprint>,
) -> Result<Value, OutOfMemory>
    ensures { IfOk result (λ v. view v
        ≡ did_data (seen shown.now) (option_copied values.entry) told.now (option_copied foot.entry)) }
{
    let Some(foot) = foot else {
        return Ok(Value::Null);
    };
    let accesses = accesses(alloc, shown, values, foot.accesses())?;
    let event = event(alloc, told, foot.event(), foot.woken())?;
    let starts = started(alloc, shown.program, told.started)?;
    let wakes = woken(alloc, foot.woken())?;
    json!(in alloc; {
        "accesses": accesses,
        "ends": foot.ended(),
        "event": event,
        "starts": starts,
        "wakes": wakes
    })
}

// The footprint of the step of this number, if it completed.
fn foot_at(feet: &[Footprint], number: usize) -> Option<&Footprint>
    ensures { option_copied result ≡ slice_get feet.now number }
{
    feet.get(number)
}

// The values of the step of this number, if they are told.
fn values_at(values: &[StepValues], number: usize) -> Option<&StepValues>
    ensures { option_copied result ≡ slice_get values.now number }
{
    values.get(number)
}

// A step.
pub(crate) fn step(
    alloc: Global,
    shown: &Shown<'_>,
    values: &[StepValues],
    told: &ToldStep,
) -> Result<Value, OutOfMemory>
    ensures { IfOk result (λ v. view v ≡ step_data (seen shown.now) values.now told.now) }
{
    let held = values_at(values, told.number);
    let did = did(alloc, shown, held, told, foot_at(shown.feet, told.number))?;
    let at = number(alloc, told.number as u128 + 1)?;
    let place = place(alloc, shown, told.before)?;
    let prints = lines(alloc, printed_by(shown.lines, told))?;
    json!(in alloc; {
        "did": did,
        "number": at,
        "place": place,
        "prints": prints,
        "thread": told.thread
    })
}
