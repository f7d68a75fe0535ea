//! What is said of a program and of a schedule, by the bytes of their files.
ghost use Rattle.std.specs.Prelude.{◌≡◌, ◌^◌, ◌≤◌, Ok, IfOk, length};
ghost use Rattle.mr_ast.specs.Shaped.{Shaped};
ghost use Rattle.mr_ast.specs.declared.program.Program.{Program};
ghost use Rattle.mr_parse.specs.GrammarParsing.{parsed};
ghost use Rattle.mr_sched.specs.Reading.{schedule_of};
ghost use Rattle.mr_run.specs.StartRuns.{schedule_fault};
ghost use Rattle.mr_run.specs.StartStart.{start_fault};
ghost use Rattle.mr_input.specs.Answer.{seen};
ghost use Rattle.mr_next.specs.Reached.{GoesTo};
ghost use Rattle.mr_refusals.specs.Answers.{IsReading, IsStatus, entries_answer, form_answer, line_answer};
ghost use Rattle.mr_refusals.specs.Answers.{program_answer, schedule_answer, spelled_answer, start_answer};
ghost use Rattle.mr_refusals.specs.Answers.{text_answer, well_formed};

use crate::OutOfMemory;
use crate::forms::push_form_fault;
use crate::heads::{Mark, Source, push_fault};
use crate::schedules::{push_legal, push_rule};
use crate::texts::push_text_fault;
use mr_ast::Program;
use mr_input::Written;
use mr_lex::TextFault;
use mr_next::{Reached, reach};
use mr_parse::{ParseFault, parse};
use mr_run::RunFault;
use mr_sched::{SchedFault, Schedule, Version, read_version};
use mr_typing::{Checked, FormFault};
use mr_wf::{WfFault, well_formed};
use std::alloc::{AllocError, Global};

// The program of a text, where it breaks no rule, and else what is told of the text.
#[derive(Drop)]
pub(crate) enum Reading {
    Well(Checked),
    Refused(Written),
}

// What is told of the first fault of a text.
fn text_written(alloc: Global, source: Source<'_>, fault: TextFault) -> Result<Written, OutOfMemory>
    ensures answer { IfOk result (λ w. seen w ≡ text_answer source.entry.name.now source.entry.text.now fault) }
    ensures status { IfOk result (λ w. IsStatus w.status) }
{
    let mut text = Vec::new(alloc);
    push_text_fault(alloc, &mut text, source, fault)?;
    Ok(Written { text, status: 3 })
}

// What is told of the first rule that a program breaks.
fn form_written(
    alloc: Global,
    source: Source<'_>,
    p: &Program,
    fault: FormFault,
) -> Result<Written, OutOfMemory>
    ensures answer { IfOk result (λ w. seen w ≡ form_answer source.entry.name.now source.entry.text.now p.now fault) }
    ensures status { IfOk result (λ w. IsStatus w.status) }
{
    let mut text = Vec::new(alloc);
    push_form_fault(alloc, &mut text, source, p, fault)?;
    Ok(Written { text, status: 4 })
}

// The program that a text denotes, where it breaks no rule, and else what is told of the rule.
fn read_program(alloc: Global, source: Source<'_>, p: Program) -> Result<Reading, OutOfMemory>
    requires shaped { Shaped p }
    requires parsed { parsed source.text.now ≡ Ok p }
    ensures { IfOk result (IsReading source.entry.name.now source.entry.text.now) }
{
    match well_formed(alloc, p) {
        Ok(checked) => Ok(Reading::Well(checked)),
        Err(WfFault::Form { fault, program }) => {
            let written = form_written(alloc, source, &program, fault)?;
            Ok(Reading::Refused(written))
        }
        Err(WfFault::Memory) => Err(AllocError),
    }
}

// The program of a text, where it breaks no rule, and else what is told of the text.
fn read_text(alloc: Global, source: Source<'_>) -> Result<Reading, OutOfMemory>
    ensures { IfOk result (IsReading source.entry.name.now source.entry.text.now) }
{
    match parse(alloc, source.text) {
        Ok(p) => read_program(alloc, source, p),
        Err(ParseFault::Text(fault)) => {
            let written = text_written(alloc, source, fault)?;
            Ok(Reading::Refused(written))
        }
        Err(ParseFault::Memory) => Err(AllocError),
    }
}

// That a program is well-formed.
fn well_written(alloc: Global, file: &str) -> Result<Written, OutOfMemory>
    ensures answer { IfOk result (λ w. seen w ≡ well_formed file.now) }
    ensures status { IfOk result (λ w. IsStatus w.status) }
{
    let mut text = Vec::from_slice(alloc, file.as_bytes())?;
    text.extend_from_slice(b": well-formed\n")?;
    Ok(Written { text, status: 0 })
}

/// What is said of a program by its text: its first fault, or the first rule that the program breaks, or that it breaks
/// none. An `Err` is for want of memory.
pub fn check_program(alloc: Global, program: Source<'_>) -> Result<Written, OutOfMemory>
    ensures answer { IfOk result (λ w. seen w ≡ program_answer program.entry.name.now program.entry.text.now) }
    ensures status { IfOk result (λ w. IsStatus w.status) }
{
    match read_text(alloc, program)? {
        Reading::Well(_) => well_written(alloc, program.name),
        Reading::Refused(written) => Ok(written),
    }
}

// What is told of a rule that a line of a schedule's text breaks.
fn line_written(
    alloc: Global,
    source: Source<'_>,
    line: u32,
    code: u8,
) -> Result<Written, OutOfMemory>
    ensures answer { IfOk result (λ w. seen w ≡ line_answer source.entry.name.now source.entry.text.now line code) }
    ensures status { IfOk result (λ w. IsStatus w.status) }
{
    let mut text = Vec::new(alloc);
    push_fault(&mut text, source, Mark { line, col: 1 }, code)?;
    Ok(Written { text, status: 5 })
}

// What is told of the first rule that the entries of a schedule break, or that they break none.
fn entries_written(
    alloc: Global,
    source: Source<'_>,
    v: Version,
    w: &Schedule,
    reached: &Reached<'_>,
) -> Result<Written, OutOfMemory>
    requires { length w.now.entries ≤ 2 ^ 22 }
    ensures answer { IfOk result (λ x. (p : Program) → GoesTo p w.now reached.now
        → seen x ≡ entries_answer source.entry.name.now source.entry.text.now p v w.now (schedule_fault p w.now)) }
    ensures status { IfOk result (λ x. IsStatus x.status) }
{
    let mut text = Vec::new(alloc);
    match reached.broken {
        Some(broken) => {
            push_rule(&mut text, source, v, w, &broken)?;
            Ok(Written { text, status: 5 })
        }
        None => {
            push_legal(&mut text, source.name, w.entries.len())?;
            Ok(Written { text, status: 0 })
        }
    }
}

// What is told of the first rule that a schedule of a program breaks, or that it breaks none.
fn run_written(
    alloc: Global,
    source: Source<'_>,
    p: &Checked,
    v: Version,
    w: &Schedule,
) -> Result<Written, OutOfMemory>
    requires { length w.now.entries ≤ 2 ^ 22 }
    ensures answer { IfOk result (λ x. seen x
        ≡ start_answer source.entry.name.now source.entry.text.now p.now v w.now (start_fault p.now w.now.start)) }
    ensures status { IfOk result (λ x. IsStatus x.status) }
{
    match reach(alloc, p, w) {
        Ok(reached) => entries_written(alloc, source, v, w, &reached),
        Err(RunFault::Broken { code, .. }) => line_written(alloc, source, 2, code),
        Err(RunFault::Memory) => Err(AllocError),
    }
}

// What is said of a schedule of a program that breaks no rule.
fn schedule_written(alloc: Global, source: Source<'_>, p: &Checked) -> Result<Written, OutOfMemory>
    ensures answer { IfOk result (λ w. seen w
        ≡ spelled_answer source.entry.name.now source.entry.text.now p.now (schedule_of source.entry.text.now)) }
    ensures status { IfOk result (λ w. IsStatus w.status) }
{
    match read_version(alloc, source.text) {
        Ok(read) => run_written(alloc, source, p, read.version, &read.schedule),
        Err(SchedFault::Bad { line, code }) => line_written(alloc, source, line, code),
        Err(SchedFault::Memory) => Err(AllocError),
    }
}

/// What is said of a schedule of a program, by their texts: what refuses the program; or the first fault of the
/// schedule's text, or the first rule that it breaks, or that it is legal. An `Err` is for want of memory.
pub fn check_schedule(
    alloc: Global,
    program: Source<'_>,
    schedule: Source<'_>,
) -> Result<Written, OutOfMemory>
    ensures answer { IfOk result (λ w. seen w ≡ schedule_answer program.entry.name.now program.entry.text.now
        schedule.entry.name.now schedule.entry.text.now) }
    ensures status { IfOk result (λ w. IsStatus w.status) }
{
    match read_text(alloc, program)? {
        Reading::Well(p) => schedule_written(alloc, schedule, &p),
        Reading::Refused(written) => Ok(written),
    }
}
