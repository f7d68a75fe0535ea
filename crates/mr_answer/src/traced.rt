//! The footprints of a run as bytes, and the races that such bytes show, as lines.
ghost use Rattle.std.specs.Prelude.{◌≡◌, ◌+◌, ◌≤◌, ◌^◌, ◌++◌, All, IfOk, OnOk, decimal, flat_map, length};
ghost use Rattle.mr_event.specs.FootOk.{IsFootOk};
ghost use Rattle.mr_report.specs.Report.{race_line};
ghost use Rattle.mr_step.specs.StartRuns.{steps_of};
ghost use Rattle.mr_trace.specs.Spelling.{IsRun};
ghost use Rattle.mr_input.specs.Answer.{IsStatus, Tells, seen};
ghost use Rattle.mr_answer.specs.Answers.{listed, races_status, run_report, traced};
ghost use Rattle.mr_answer.specs.declared.formats.Format.TheVariants.{Footprints};
ghost use Rattle.mr_input.specs.Inputs.{IsUnreadFault};

use crate::drawing::push_count;
use crate::run::refusal_of;
use itoa::Buffer;
use mr_event::Footprint;
use mr_input::{Refusal, Written, answered};
use mr_run::run;
use mr_sched::{Schedule, Version};
use mr_trace::{Pair, encode};
use mr_typing::Checked;
use std::alloc::{AllocError, Global};

/// The footprints of the completed steps of the run of a program under a schedule, as bytes.
pub fn report_footprints(
    alloc: Global,
    p: &Checked,
    v: Version,
    w: &Schedule,
) -> Result<Written, Refusal>
    requires { length w.now.entries ≤ 2 ^ 22 }
    ensures answer { Tells (run_report Footprints p.now v w.now) result }
    ensures status { IfOk result (λ a. IsStatus a.status) }
    ensures read { ¬ IsUnreadFault result }
    ensures run { OnOk result (IsRun (steps_of p.now w.now)) }
{
    let _program = p.program();
    let mut steps: Vec<Footprint> = Vec::new(alloc);
    match run(alloc, p, w, &mut steps) {
        Ok(_) => answered(spelled_run(alloc, steps.as_slice())),
        Err(fault) => Err(refusal_of(v, w, fault)),
    }
}

// The bytes of the footprints of a run.
fn spelled_run(alloc: Global, steps: &[Footprint]) -> Result<Written, AllocError>
    requires few { length steps.now ≤ 2 ^ 22 }
    requires limits { All IsFootOk steps.now }
    ensures answer { IfOk result (λ a. seen a ≡ traced steps.now) }
    ensures status { IfOk result (λ a. IsStatus a.status) }
    ensures run { OnOk result (IsRun steps.now) }
{
    let mut text = Vec::new(alloc);
    encode(alloc, steps, &mut text)?;
    Ok(Written { text, status: 0 })
}

/// How many races there are, and each, and the exit status.
pub fn listing(alloc: Global, races: &[Pair]) -> Result<Written, AllocError>
    ensures answer { IfOk result (λ a. seen a ≡ listed races.now) }
    ensures status { IfOk result (λ a. IsStatus a.status) }
{
    let mut text = Vec::new(alloc);
    push_count(&mut text, b"races ", races.len() as u64)?;
    push_races(&mut text, races)?;
    Ok(Written {
        text,
        status: status_of(races),
    })
}

fn status_of(races: &[Pair]) -> u8
    ensures status { result ≡ races_status races.now }
    ensures least { result ≤ 1 }
{
    if races.is_empty() { 0 } else { 1 }
}

fn push_races(text: &mut Vec<u8>, races: &[Pair]) -> Result<(), AllocError>
    ensures { OnOk result (text.new.items ≡ text.old.items ++ flat_map race_line races.now) }
{
    for pair in races {
        push_race(text, *pair)?;
    }
    Ok(())
}

// A race, whose steps are counted from 1.
fn push_race(text: &mut Vec<u8>, pair: Pair) -> Result<(), AllocError>
    ensures { OnOk result (text.new.items ≡ text.old.items ++ race_line pair) }
{
    text.extend_from_slice(b"race ")?;
    push_place(text, pair.first)?;
    text.push(b' ')?;
    push_place(text, pair.second)?;
    text.push(b'\n')?;
    Ok(())
}

fn push_place(text: &mut Vec<u8>, at: usize) -> Result<(), AllocError>
    ensures { OnOk result (text.new.items ≡ text.old.items ++ decimal (at + 1)) }
{
    let mut buffer = Buffer::new();
    text.extend_from_slice(buffer.format(at as u128 + 1).as_bytes())
}
