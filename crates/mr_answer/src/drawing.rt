//! Runs under a schedule that is drawn from a number.
ghost use Rattle.std.specs.Prelude.{◌≡◌, ◌≤◌, ◌^◌, ◌++◌, IfOk, OnOk, decimal, length, map};
ghost use Rattle.mr_auto.specs.Drawing.{drawn_schedule};
ghost use Rattle.mr_gen.specs.Generated.{generated};
ghost use Rattle.mr_report.specs.Json.{ArePrinted};
ghost use Rattle.mr_report.specs.Report.{line};
ghost use Rattle.mr_sched.specs.declared.version.Version.TheVariants.{One};
ghost use Rattle.mr_answer.specs.Answers.{behind_schedule, big_answer, drawn_answer, summary, told_in};
ghost use Rattle.mr_input.specs.Answer.{IsStatus, seen};
ghost use Rattle.mr_answer.specs.declared.formats.Format.TheVariants.{Text};
ghost use Rattle.mr_answer.specs.Report.{line_of};

use crate::formats::Format;
use crate::report::{behind_schedule, lines_of, report_kept, status_of};
use mr_auto::{Drawn, draw};
use mr_event::Pair;
use mr_gen::{rounds, workers};
use mr_input::{Written, push_number};
use mr_report::brief;
use mr_run::Clocked;
use mr_sched::Version;
use mr_step::Machine;
use mr_typing::Checked;
use std::alloc::{AllocError, Global};

// As many entries as the schedule of a generated program may have.
const MOST_ENTRIES: u32 = 65_536;

/// The schedule that is drawn for a program, in version 1, and the report of the run under it.
pub fn drawn(alloc: Global, p: &Checked, number: u64, most: u32) -> Result<Written, AllocError>
    requires { most ≤ 2 ^ 20 }
    ensures answer { IfOk result (λ a. seen a ≡ drawn_answer p.now (drawn_schedule p.now number most)) }
    ensures status { IfOk result (λ a. IsStatus a.status) }
{
    let mut kept = Clocked::new(alloc);
    match draw(alloc, p, number, most, &mut kept) {
        Ok(run) => drawn_report(alloc, &run, &kept),
        Err(fault) => Err(fault),
    }
}

// The same of the run that it was drawn in.
fn drawn_report(alloc: Global, run: &Drawn<'_>, kept: &Clocked) -> Result<Written, AllocError>
    requires steps { length kept.now ≤ length run.now.schedule.entries }
    requires texts { ArePrinted (map line_of run.now.machine.config.output) }
    ensures answer { IfOk result (λ a. seen a ≡ behind_schedule One run.now.schedule
        (told_in Text One run.now.schedule (record { config = run.now.machine.config; steps = kept.now }))) }
    ensures status { IfOk result (λ a. IsStatus a.status) }
{
    let written = report_kept(
        alloc,
        Format::Text,
        Version::One,
        &run.schedule,
        &run.machine,
        kept,
    )?;
    behind_schedule(alloc, Version::One, &run.schedule, written)
}

// Appends a line of a word and a number.
pub(crate) fn push_count(text: &mut Vec<u8>, word: &[u8], count: u64) -> Result<(), AllocError>
    ensures { OnOk result (text.new.items ≡ text.old.items ++ line (word.now ++ decimal count)) }
{
    text.extend_from_slice(word)?;
    push_number(text, count)?;
    text.push(b'\n')?;
    Ok(())
}

/// The summary of a run of the program of a number, under the schedule that is drawn from the same number.
pub fn summary(alloc: Global, p: &Checked, number: u64) -> Result<Written, AllocError>
    requires { p.now ≡ generated number }
    ensures answer { IfOk result (λ a. seen a ≡ big_answer number) }
    ensures status { IfOk result (λ a. IsStatus a.status) }
{
    let mut kept = Clocked::new(alloc);
    match draw(alloc, p, number, MOST_ENTRIES, &mut kept) {
        Ok(run) => summed(
            alloc,
            number,
            run.schedule.entries.len() as u64,
            &run.machine,
            kept.races(),
        ),
        Err(fault) => Err(fault),
    }
}

// The same of a run under so many entries that shows these races.
fn summed(
    alloc: Global,
    number: u64,
    entries: u64,
    machine: &Machine<'_>,
    races: &[Pair],
) -> Result<Written, AllocError>
    ensures answer { IfOk result (λ a. seen a ≡ summary number entries machine.now.config races.now) }
    ensures status { IfOk result (λ a. IsStatus a.status) }
{
    let mut text = Vec::new(alloc);
    push_count(&mut text, b"big ", number)?;
    push_count(&mut text, b"workers ", workers(number).into())?;
    push_count(&mut text, b"rounds ", rounds(number).into())?;
    push_count(&mut text, b"entries ", entries)?;
    let lines = lines_of(alloc, machine)?;
    let verdict = machine.verdict();
    brief(lines.as_slice(), verdict, races, &mut text)?;
    Ok(Written {
        text,
        status: status_of(verdict, races),
    })
}
