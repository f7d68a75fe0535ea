//! The picture of a trace.
ghost use Rattle.std.specs.Prelude.{◌≡◌, ◌<◌, ◌≤◌, ◌^◌, ◌++◌, All, IfOk, OnOk, flat_map, length, option_copied, slice_get};
ghost use Rattle.mr_listing.specs.ReportReport.{count_line};
ghost use Rattle.mr_traced.specs.Drawn.{access_deed, drawn_step, drawn_steps, event_deed, foot_deeds, picture_text, span_text};
ghost use Rattle.mr_traced.specs.Drawn.{started_at, started_by};
ghost use Rattle.mr_traced.specs.Names.{spot_text};
ghost use Rattle.mr_traced.specs.Seen.{seen};

use crate::OutOfMemory;
use crate::kept::Shown;
use crate::lines::{foot_at, push_races_count};
use crate::naming::{push_spot_of, site_at};
use mr_base::{Access, Event};
use mr_clocks::Analysis;
use mr_event::{Footprint, Pair, thread_at};
use mr_labels::push_number;
use mr_listing::{access_word, push_bytes};
use mr_picture::{Drawn, Sketch, Span, chosen, push_ended, push_numbered, push_woken, sketched};
use mr_sched::Items;
use std::alloc::Global;

// The thread that a step started.
fn started_by(event: Event) -> Option<u32>
    ensures { result ≡ started_by event }
{
    match event {
        Event::Spawn(thread) => Some(thread),
        _ => None,
    }
}

fn started_at(foot: Option<&Footprint>) -> Option<u32>
    ensures { result ≡ started_at (option_copied foot.entry) }
{
    match foot {
        None => None,
        Some(foot) => started_by(foot.event()),
    }
}

// Appends what a step did to a lock or to another thread.
fn push_event(out: &mut Vec<u8>, event: Event) -> Result<(), OutOfMemory>
    ensures { OnOk result (out.new.items ≡ out.old.items ++ event_deed event) }
{
    match event {
        Event::Quiet => Ok(()),
        Event::CreateLock(lock) => push_numbered(out, "creates lock ", lock),
        Event::Acquire(lock) => push_numbered(out, "acquires lock ", lock),
        Event::Release(lock) => push_numbered(out, "releases lock ", lock),
        Event::Spawn(thread) => push_numbered(out, "starts thread ", thread),
        Event::Join(thread) => push_numbered(out, "joins thread ", thread),
    }
}

// Appends an access.
fn push_access(out: &mut Vec<u8>, access: Access) -> Result<(), OutOfMemory>
    ensures { OnOk result (out.new.items ≡ out.old.items ++ access_deed access) }
{
    out.extend_from_slice(b"\n")?;
    out.extend_from_slice(access_word(access).as_bytes())?;
    out.extend_from_slice(b"address ")?;
    push_number(out, access.addr)?;
    out.extend_from_slice(b", ")?;
    push_bytes(out, access.len)
}

// Appends each access.
fn push_accesses(out: &mut Vec<u8>, accesses: &[Access]) -> Result<(), OutOfMemory>
    ensures { OnOk result (out.new.items ≡ out.old.items ++ flat_map access_deed accesses.now) }
{
    for access in accesses {
        push_access(out, *access)?;
    }
    Ok(())
}

// Appends what a step did.
fn push_foot(out: &mut Vec<u8>, foot: Option<&Footprint>) -> Result<(), OutOfMemory>
    ensures { OnOk result (out.new.items ≡ out.old.items ++ foot_deeds (option_copied foot.entry)) }
{
    match foot {
        None => Ok(()),
        Some(foot) => {
            push_event(out, foot.event())?;
            push_ended(out, foot.ended())?;
            push_woken(out, foot.woken())?;
            push_accesses(out, foot.accesses())
        }
    }
}

// What a step did.
fn did_of(alloc: Global, foot: Option<&Footprint>) -> Result<Vec<u8>, OutOfMemory>
    ensures { IfOk result (λ text. text.items ≡ foot_deeds (option_copied foot.entry)) }
{
    let mut out = Vec::new(alloc);
    push_foot(&mut out, foot)?;
    Ok(out)
}

// Where a step is.
fn spot_of(alloc: Global, shown: &Shown<'_>, number: usize) -> Result<Vec<u8>, OutOfMemory>
    ensures { IfOk result (λ text. text.items
        ≡ spot_text (seen shown.now) (slice_get (seen shown.now).sites number)) }
{
    let mut out = Vec::new(alloc);
    push_spot_of(&mut out, shown, site_at(shown, number))?;
    Ok(out)
}

// What is drawn of a step.
fn drawn_step(alloc: Global, shown: &Shown<'_>, number: usize) -> Result<Drawn, OutOfMemory>
    requires { number < length (seen shown.now).run }
    ensures { IfOk result (λ drawn. drawn ≡ drawn_step (seen shown.now) number) }
{
    let stand = spot_of(alloc, shown, number)?;
    let did = did_of(alloc, foot_at(shown, number))?;
    Ok(Drawn {
        number,
        thread: thread_at(shown.run, number),
        started: started_at(foot_at(shown, number)),
        stand: Items::from_vec(stand),
        did: Items::from_vec(did),
    })
}

// What is drawn of these steps.
fn drawn_steps(alloc: Global, shown: &Shown<'_>, span: Span) -> Result<Vec<Drawn>, OutOfMemory>
    requires { span.to ≤ length (seen shown.now).run }
    ensures { IfOk result (λ drawn. drawn.items ≡ drawn_steps (seen shown.now) span) }
{
    let mut drawn = Vec::new(alloc);
    for number in span.from..span.to {
        let step = drawn_step(alloc, shown, number)?;
        drawn.push(step)?;
    }
    Ok(drawn)
}

// How many races there are.
fn count_text(alloc: Global, races: &[Pair]) -> Result<Vec<u8>, OutOfMemory>
    ensures { IfOk result (λ text. text.items ≡ count_line races.now) }
{
    let mut out = Vec::new(alloc);
    push_races_count(&mut out, races)?;
    Ok(out)
}

// The picture of these steps.
fn span_text(alloc: Global, shown: &Shown<'_>, span: Span) -> Result<Vec<u8>, OutOfMemory>
    requires few { length (seen shown.now).run < 2 ^ 32 }
    requires within { span.to ≤ length (seen shown.now).run }
    ensures { IfOk result (λ text. text.items ≡ span_text (seen shown.now) span) }
{
    let order = Analysis::of_run(alloc, shown.run)?;
    let steps = drawn_steps(alloc, shown, span)?;
    let tail = count_text(alloc, shown.races)?;
    let sketch = Sketch {
        count: shown.run.len(),
        feet: shown.run,
        races: shown.races,
        names: &[],
        tail: tail.as_slice(),
    };
    sketched(alloc, &sketch, &order, span, steps.as_slice())
}

/// The picture of a trace, of the steps that are asked for or, without any, of those about the first race. An `Err` is for
/// want of memory.
pub(crate) fn picture_text(
    alloc: Global,
    shown: &Shown<'_>,
    asked: Option<Span>,
) -> Result<Vec<u8>, OutOfMemory>
    requires { length (seen shown.now).run < 2 ^ 32 }
    ensures { IfOk result (λ text. text.items ≡ picture_text asked (seen shown.now)) }
{
    span_text(alloc, shown, chosen(shown.run.len(), shown.races, asked))
}
