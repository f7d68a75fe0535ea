//! What is drawn of the run of a program.
ghost use Rattle.std.specs.Prelude.{◌≡◌, ◌++◌, IfOk, OnOk, flat_map, option_copied, slice_get};
ghost use Rattle.mr_listing.specs.Seen.{seen};
ghost use Rattle.mr_picture.specs.Drawn.{drawn_of, drawn_steps, name_of, names_of, started_name, tail_of, thread_of};
ghost use Rattle.mr_picture.specs.Drawn.{told_name};

use crate::deeds::push_deeds;
use crate::scene::{Drawn, is_in};
use crate::texts::push;
use crate::{OutOfMemory, Span};
use mr_labels::{Stand, ToldStep, function_word, push_number};
use mr_listing::{Shown, StepValues, stand_text, steps};
use mr_sched::Items;
use std::alloc::Global;

/// What is told of a run behind its steps.
pub(crate) fn tail_of(alloc: Global, shown: &Shown<'_>) -> Result<Vec<u8>, OutOfMemory>
    ensures { IfOk result (λ text. text.items ≡ tail_of (seen shown.now)) }
{
    let end = Shown {
        text: shown.text,
        program: shown.program,
        places: shown.places,
        rows: shown.rows,
        steps: &[],
        stands: shown.stands,
        count: shown.count,
        feet: shown.feet,
        lines: shown.lines,
        races: shown.races,
        verdict: shown.verdict,
        rests: shown.rests,
    };
    steps(alloc, &end, &[])
}

// Appends a thread, with the function with which it began.
fn push_name(
    out: &mut Vec<u8>,
    shown: &Shown<'_>,
    thread: u32,
    function: u32,
) -> Result<(), OutOfMemory>
    ensures { OnOk result (out.new.items ≡ out.old.items ++ name_of (seen shown.now) thread function) }
{
    push(out, ", T")?;
    push_number(out, thread.into())?;
    push(out, " ")?;
    push(out, function_word(shown.program, function))
}

// Appends the thread that was started, if one was.
fn push_started(
    out: &mut Vec<u8>,
    shown: &Shown<'_>,
    started: Option<Stand>,
) -> Result<(), OutOfMemory>
    ensures { OnOk result (out.new.items ≡ out.old.items ++ started_name (seen shown.now) started) }
{
    match started {
        None => Ok(()),
        Some(stand) => push_name(out, shown, stand.thread, stand.function),
    }
}

// Appends the threads that these steps started.
fn push_each_started(
    out: &mut Vec<u8>,
    shown: &Shown<'_>,
    steps: &[ToldStep],
) -> Result<(), OutOfMemory>
    ensures { OnOk result (out.new.items ≡ out.old.items ++ flat_map (told_name (seen shown.now)) steps.now) }
{
    for told in steps {
        push_started(out, shown, told.started)?;
    }
    Ok(())
}

/// The names of the threads, each with its function.
pub(crate) fn names_of(alloc: Global, shown: &Shown<'_>) -> Result<Vec<u8>, OutOfMemory>
    ensures { IfOk result (λ text. text.items ≡ names_of (seen shown.now)) }
{
    let mut out = Vec::new(alloc);
    push(&mut out, "T0 ")?;
    push(
        &mut out,
        function_word(shown.program, shown.program.start.0),
    )?;
    push_each_started(&mut out, shown, shown.steps)?;
    Ok(out)
}

// The thread that stands there.
fn thread_of(stand: Option<Stand>) -> Option<u32>
    ensures { result ≡ thread_of stand }
{
    match stand {
        None => None,
        Some(stand) => Some(stand.thread),
    }
}

// The values of the step of this number, if they are told.
fn values_at(values: &[StepValues], number: usize) -> Option<&StepValues>
    ensures { option_copied result ≡ slice_get values.now number }
{
    values.get(number)
}

// What is drawn of a step of a run with these values.
fn drawn_of(
    alloc: Global,
    shown: &Shown<'_>,
    values: &[StepValues],
    told: &ToldStep,
) -> Result<Drawn, OutOfMemory>
    ensures { IfOk result (λ drawn. drawn ≡ drawn_of (seen shown.now) values.now told.now) }
{
    let stand = stand_text(alloc, shown, told.before)?;
    let mut did = Vec::new(alloc);
    push_deeds(&mut did, shown, values_at(values, told.number), told)?;
    Ok(Drawn {
        number: told.number,
        thread: told.thread,
        started: thread_of(told.started),
        stand: Items::from_vec(stand),
        did: Items::from_vec(did),
    })
}

/// What is drawn of those of these steps that are.
pub(crate) fn drawn_steps(
    alloc: Global,
    shown: &Shown<'_>,
    values: &[StepValues],
    span: Span,
    steps: &[ToldStep],
) -> Result<Vec<Drawn>, OutOfMemory>
    ensures { IfOk result (λ drawn. drawn.items ≡ drawn_steps (seen shown.now) values.now span steps.now) }
{
    let mut drawn = Vec::new(alloc);
    for told in steps {
        if is_in(span, told.number) {
            let step = drawn_of(alloc, shown, values, told)?;
            drawn.push(step)?;
        }
    }
    Ok(drawn)
}
