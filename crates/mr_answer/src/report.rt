//! The report of a run: its text, and the exit status.
ghost use Rattle.std.specs.Prelude.{◌≡◌, ◌≤◌, ◌<◌, IfOk, Some, length, map, option_copied, slice_get};
ghost use Rattle.mr_step.specs.PlanRuns.{Printed};
ghost use Rattle.mr_answer.specs.Answers.{behind_schedule, selection_of, told_by, told_in};
ghost use Rattle.mr_input.specs.Answer.{IsStatus, seen};
ghost use Rattle.mr_answer.specs.Report.{line_of, report_status, verdict_status, written_as};
ghost use Rattle.mr_report.specs.Json.{ArePrinted};

use crate::formats::Format;
use mr_base::Verdict;
use mr_event::Pair;
use mr_input::Written;
use mr_report::{Line, Report, json, text};
use mr_run::{Clocked, Selection, first_witness};
use mr_sched::{Items, Schedule, Version, print_version};
use mr_step::Machine;
use std::alloc::{AllocError, Global};

/// The report of a run, from the machine behind its last entry, the races that it shows, and the witness for the first
/// of them, which is written in a version.
pub fn report(
    alloc: Global,
    format: Format,
    v: Version,
    machine: &Machine<'_>,
    races: &[Pair],
    witness: Option<&Schedule>,
) -> Result<Written, AllocError>
    requires { ArePrinted (map line_of machine.now.config.output) }
    ensures answer { IfOk result
        (λ a. seen a ≡ told_by format v machine.now.config races.now (option_copied witness.entry)) }
    ensures status { IfOk result (λ a. IsStatus a.status) }
{
    let lines = lines_of(alloc, machine)?;
    let verdict = machine.verdict();
    let report = Report {
        output: lines.as_slice(),
        verdict,
        races,
        witness,
        version: v,
    };
    let text = text_of(alloc, format, &report)?;
    Ok(Written {
        text,
        status: status_of(verdict, races),
    })
}

/// The report of a run under a schedule, of which footprints and races were kept.
pub fn report_kept(
    alloc: Global,
    format: Format,
    v: Version,
    w: &Schedule,
    machine: &Machine<'_>,
    kept: &Clocked,
) -> Result<Written, AllocError>
    requires steps { length kept.now ≤ length w.now.entries }
    requires texts { ArePrinted (map line_of machine.now.config.output) }
    ensures answer { IfOk result
        (λ a. seen a ≡ told_in format v w.now (record { config = machine.now.config; steps = kept.now })) }
    ensures status { IfOk result (λ a. IsStatus a.status) }
{
    let races = kept.races();
    let selection = selection_of(format);
    let witness = first_witness(alloc, selection, kept.steps(), w, races)?;
    report(alloc, format, v, machine, races, witness.as_ref())
}

/// The text of a schedule in a version, and behind it what was written of a run.
pub fn behind_schedule(
    alloc: Global,
    v: Version,
    w: &Schedule,
    written: Written,
) -> Result<Written, AllocError>
    requires { IsStatus written.status }
    ensures answer { IfOk result (λ a. seen a ≡ behind_schedule v w.now (seen written)) }
    ensures status { IfOk result (λ a. IsStatus a.status) }
{
    let mut text = Vec::new(alloc);
    print_version(alloc, v, w, &mut text)?;
    text.extend_from_slice(written.text.as_slice())?;
    Ok(Written {
        text,
        status: written.status,
    })
}

// The text of a report.
fn text_of(alloc: Global, format: Format, report: &Report<'_>) -> Result<Vec<u8>, AllocError>
    requires { ArePrinted report.now.output.now }
    ensures { IfOk result (λ out. out.items ≡ written_as format report.now.output.now
        report.now.verdict report.now.races.now (option_copied report.now.witness) report.now.version) }
{
    let mut out = Vec::new(alloc);
    match format {
        Format::Text => text(alloc, report, &mut out)?,
        Format::Json => json(alloc, report, &mut out)?,
        Format::Short => text(alloc, report, &mut out)?,
        Format::Footprints => text(alloc, report, &mut out)?,
        Format::Shuffled { .. } => text(alloc, report, &mut out)?,
    }
    Ok(out)
}

// Which entries the witness takes in a format.
fn selection_of(format: Format) -> Selection
    ensures { result ≡ selection_of format }
{
    match format {
        Format::Short => Selection::Needed,
        Format::Text | Format::Json | Format::Footprints | Format::Shuffled { .. } => {
            Selection::Kept
        }
    }
}

/// The exit status of a run that came to this.
pub fn status_of(verdict: Verdict, races: &[Pair]) -> u8
    ensures status { result ≡ report_status verdict races.now }
    ensures least { result ≤ 1 }
{
    if races.is_empty() {
        verdict_status(verdict)
    } else {
        1
    }
}

fn verdict_status(verdict: Verdict) -> u8
    ensures status { result ≡ verdict_status verdict }
    ensures least { result ≤ 1 }
{
    match verdict {
        Verdict::Running | Verdict::Exit => 0,
        Verdict::Leak | Verdict::Abort | Verdict::Deadlock | Verdict::Undefined(_) => 1,
    }
}

/// The prints of a run, in order.
pub fn lines_of(alloc: Global, machine: &Machine<'_>) -> Result<Vec<Line>, AllocError>
    ensures { IfOk result (λ lines. lines.items ≡ map line_of machine.now.config.output) }
{
    let mut lines = Vec::new(alloc);
    for i in 0..machine.lines() {
        lines.push(line_at(alloc, machine, i)?)?;
    }
    Ok(lines)
}

// The print of this number, counted from 0.
fn line_at(alloc: Global, machine: &Machine<'_>, i: usize) -> Result<Line, AllocError>
    requires { i < length machine.now.config.output }
    ensures { (p : Printed) → slice_get machine.now.config.output i ≡ Some p → IfOk result (λ l. l ≡ line_of p) }
{
    match machine.line(i) {
        Some((thread, bytes)) => Ok(Line {
            thread,
            text: Items::from_slice(alloc, bytes)?,
        }),
        None => unreachable!(),
    }
}
