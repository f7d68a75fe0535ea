//! The JSON of a run.
ghost use Rattle.std.specs.Prelude.{◌≡◌, ◌++◌, IfOk, codes, decimal, map, slice_get, string_bytes};
ghost use Rattle.mr_listing.specs.Seen.{seen};
ghost use Rattle.mr_json.specs.Run.{ReadsAs, before_of, code_data, json_text, race_data, run_data, side_data};
ghost use Rattle.mr_json.specs.Steps.{step_data};
ghost use Rattle.mr_report.specs.Report.{verdict_text};
ghost use Rattle.serde_json.specs.Data.{array as array_data};
ghost use Rattle.serde_json.specs.View.{items_of, view};

use crate::OutOfMemory;
use crate::parts::{number, place};
use crate::steps::{lines, step};
use itoa::Buffer;
use mr_base::Verdict;
use mr_event::Pair;
use mr_labels::{Stand, ToldStep};
use mr_listing::{Shown, StepValues};
use serde_json::{Value, json};
use std::alloc::Global;

// Where the thread of a step stood before it, where that step is told.
fn before_of(steps: &[ToldStep], number: usize) -> Option<Stand>
    ensures { result ≡ before_of (slice_get steps.now number) }
{
    match steps.get(number) {
        Some(told) => told.before,
        None => None,
    }
}

// A step of a race, with its place.
fn side(alloc: Global, shown: &Shown<'_>, at: usize) -> Result<Value, OutOfMemory>
    ensures { IfOk result (λ v. view v ≡ side_data (seen shown.now) at) }
{
    let place = place(alloc, shown, before_of(shown.steps, at))?;
    let step = number(alloc, at as u128 + 1)?;
    json!(in alloc; { "place": place, "step": step })
}

fn race(alloc: Global, shown: &Shown<'_>, pair: Pair) -> Result<Value, OutOfMemory>
    ensures { IfOk result (λ v. view v ≡ race_data (seen shown.now) pair) }
{
    let first = side(alloc, shown, pair.first)?;
    let second = side(alloc, shown, pair.second)?;
    json!(in alloc; { "first": first, "second": second })
}

fn races(alloc: Global, shown: &Shown<'_>, races: &[Pair]) -> Result<Value, OutOfMemory>
    ensures { IfOk result (λ v. view v ≡ array_data (items_of (map (race_data (seen shown.now)) races.now))) }
{
    let mut list = Vec::new(alloc);
    for pair in races {
        list.push(race(alloc, shown, *pair)?)?;
    }
    Ok(Value::Array(list))
}

fn steps(
    alloc: Global,
    shown: &Shown<'_>,
    values: &[StepValues],
    steps: &[ToldStep],
) -> Result<Value, OutOfMemory>
    ensures { IfOk result
        (λ v. view v ≡ array_data (items_of (map (step_data (seen shown.now) values.now) steps.now))) }
{
    let mut list = Vec::new(alloc);
    for told in steps {
        list.push(step(alloc, shown, values, told)?)?;
    }
    Ok(Value::Array(list))
}

// The code of the reason of an undefined run.
fn code(verdict: Verdict) -> Value
    ensures { view result ≡ code_data verdict }
{
    match verdict {
        Verdict::Undefined(reason) => Value::from(reason.code()),
        _ => Value::Null,
    }
}

// What the verdict of an undefined run is called.
fn undefined(alloc: Global, code: u16, name: &str) -> Result<String, OutOfMemory>
    ensures { IfOk result
        (λ text. string_bytes text ≡ codes "undefined " ++ decimal code ++ codes " " ++ name.now) }
{
    let mut buffer = Buffer::new();
    let mut text = String::from_str(alloc, "undefined ")?;
    text.push_str(buffer.format(code))?;
    text.push_str(" ")?;
    text.push_str(name)?;
    Ok(text)
}

// What a verdict is called.
fn word(alloc: Global, verdict: Verdict) -> Result<String, OutOfMemory>
    ensures { IfOk result (λ text. string_bytes text ≡ verdict_text verdict) }
{
    match verdict {
        Verdict::Running => String::from_str(alloc, "running"),
        Verdict::Exit => String::from_str(alloc, "exit"),
        Verdict::Leak => String::from_str(alloc, "leak"),
        Verdict::Abort => String::from_str(alloc, "abort"),
        Verdict::Deadlock => String::from_str(alloc, "deadlock"),
        Verdict::Undefined(reason) => undefined(alloc, reason.code(), reason.name()),
    }
}

// The value of a run.
fn run(alloc: Global, shown: &Shown<'_>, values: &[StepValues]) -> Result<Value, OutOfMemory>
    ensures { IfOk result (λ v. view v ≡ run_data (seen shown.now) values.now) }
{
    let output = lines(alloc, shown.lines)?;
    let races = races(alloc, shown, shown.races)?;
    let steps = steps(alloc, shown, values, shown.steps)?;
    let verdict = word(alloc, shown.verdict)?;
    json!(in alloc; {
        "code": code(shown.verdict),
        "output": output,
        "races": races,
        "steps": steps,
        "verdict": verdict,
        "version": 1u32
    })
}

/// A run as one JSON object and a line feed, where all its steps are told, with what they loaded and stored, which
/// stands at the number of each. It reads back as the value that was written. An `Err` is for want of memory.
pub fn json(alloc: Global, shown: &Shown<'_>, values: &[StepValues]) -> Result<Vec<u8>, OutOfMemory>
    ensures text { IfOk result (λ text. text.items ≡ json_text (seen shown.now) values.now) }
    ensures reads_back { IfOk result (λ text. ReadsAs text.items (run_data (seen shown.now) values.now)) }
{
    let mut text = run(alloc, shown, values)?.to_vec(alloc)?;
    text.push(b'\n')?;
    Ok(text)
}
