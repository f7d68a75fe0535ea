//! What is said of the run of the program in one file under the schedule in another.
ghost use Rattle.std.specs.Prelude.{◌≡◌, ℕ, ◌+◌, ◌^◌, ◌<◌, ◌≤◌, List, None, Some, Ok, IfOk, IsTrue, OnOk, length, true};
ghost use Rattle.mr_ast.specs.Shaped.{Shaped};
ghost use Rattle.mr_io.specs.Counts.{Rose};
ghost use Rattle.mr_io.specs.Files.{Contents};
ghost use Rattle.mr_places.specs.GrammarParsing.{parsed};
ghost use Rattle.mr_input.specs.Answer.{IsStatus, Tells, TellsOrUnread, told};
ghost use Rattle.mr_input.specs.Inputs.{IsUnreadFault, schedule_in};
ghost use Rattle.mr_run.specs.Runs.{HasPlace, RunAnswer, are_of_first};
ghost use Rattle.mr_show.specs.Answer.{answer_under, drawn_between, first_rows, next_under, ran_answer};
ghost use Rattle.mr_show.specs.Answer.{IsOfRaces, ran_under, told_for};
ghost use Rattle.mr_show.specs.Answering.{IsOfFile, IsOfProgram, IsOfText, IsToldAs};
ghost use Rattle.mr_show.specs.Witness.{witness_under};

use crate::filled::filled_file;
use crate::form::{ALL, Part, Saying};
use crate::laid::laid;
use crate::next::next_run;
use crate::witness::witness_run;
use mr_answer::refusal_of;
use mr_ast::Program;
use mr_input::{Refusal, Written, answered, form_answer, program_of, read_schedule, read_text};
use mr_io::Files;
use mr_labels::{Allocation, Stand, ToldStep, start_rows};
use mr_picture::Span;
use mr_replay::{Between, stands, tell};
use mr_run::{Clocked, Nothing, RunFault, Selection, is_of_first, run};
use mr_sched::{Schedule, Version};
use mr_start::start_asks;
use mr_step::Machine;
use mr_wf::{Checked, WfFault, well_formed};
use std::alloc::{AllocError, Global};

/// What is said of the run of the program in a file under the schedule in another.
pub(crate) fn shown_file<F: Files>(
    alloc: Global,
    files: &mut F,
    saying: Saying,
    program: &str,
    schedule: &str,
) -> Result<Written, Refusal>
    ensures same { F.told files.new ≡ F.told files.old }
    ensures reads { F.reads files.new ≤ F.reads files.old + 2 }
    ensures faults { F.faults files.old ≤ F.faults files.new }
    ensures answer { (contents : Contents) → F.told files.old ≡ Some contents
        → IsOfFile (Rose (F.faults files.old) (F.faults files.new)) saying (contents schedule.now)
        (contents program.now) result }
    ensures status { IfOk result (λ a. IsStatus a.status) }
    ensures texts { F.told files.old ≡ None → (program : List ℕ) × (schedule : List ℕ)
        × IsOfFile (Rose (F.faults files.old) (F.faults files.new)) saying (Some schedule) (Some program) result }
    ensures untold { F.told files.old ≡ None → IsUnreadFault result
        → Rose (F.faults files.old) (F.faults files.new) }
{
    match read_text(alloc, files, program) {
        Ok(text) => shown_text(alloc, files, saying, text.as_slice(), schedule),
        Err(refusal) => Err(refusal),
    }
}

/// The same of the program that a text denotes.
pub(crate) fn shown_text<F: Files>(
    alloc: Global,
    files: &mut F,
    saying: Saying,
    text: &[u8],
    schedule: &str,
) -> Result<Written, Refusal>
    ensures same { F.told files.new ≡ F.told files.old }
    ensures reads { F.reads files.new ≤ F.reads files.old + 1 }
    ensures faults { F.faults files.old ≤ F.faults files.new }
    ensures answer { (contents : Contents) → F.told files.old ≡ Some contents
        → IsOfText (Rose (F.faults files.old) (F.faults files.new)) saying (contents schedule.now) text.now result }
    ensures status { IfOk result (λ a. IsStatus a.status) }
    ensures texts { F.told files.old ≡ None → (schedule : List ℕ)
        × IsOfText (Rose (F.faults files.old) (F.faults files.new)) saying (Some schedule) text.now result }
    ensures untold { F.told files.old ≡ None → IsUnreadFault result
        → Rose (F.faults files.old) (F.faults files.new) }
{
    match program_of(alloc, text) {
        Ok(p) => shown_program(alloc, files, saying, text, p, schedule),
        Err(refusal) => Err(refusal),
    }
}

// The same of a program that breaks no rule, and else the line of the first rule that it breaks.
#[tactic(auto, using(mr_input::proofs::AnswerLaws::broken_told))]
fn shown_program<F: Files>(
    alloc: Global,
    files: &mut F,
    saying: Saying,
    text: &[u8],
    p: Program,
    schedule: &str,
) -> Result<Written, Refusal>
    requires shaped { Shaped p }
    requires parsed { parsed text.now ≡ Ok p }
    ensures same { F.told files.new ≡ F.told files.old }
    ensures reads { F.reads files.new ≤ F.reads files.old + 1 }
    ensures faults { F.faults files.old ≤ F.faults files.new }
    ensures answer { (contents : Contents) → F.told files.old ≡ Some contents
        → IsOfProgram (Rose (F.faults files.old) (F.faults files.new)) saying text.now (contents schedule.now) p
        result }
    ensures status { IfOk result (λ a. IsStatus a.status) }
    ensures texts { F.told files.old ≡ None → (schedule : List ℕ)
        × IsOfProgram (Rose (F.faults files.old) (F.faults files.new)) saying text.now (Some schedule) p result }
    ensures untold { F.told files.old ≡ None → IsUnreadFault result
        → Rose (F.faults files.old) (F.faults files.new) }
{
    match well_formed(alloc, p) {
        Ok(checked) => shown_schedule(alloc, files, saying, text, &checked, schedule),
        Err(WfFault::Form { fault, program }) => form_answer(alloc, &program, fault),
        Err(WfFault::Memory) => Err(Refusal::Memory),
    }
}

// The same of the run of a program under the schedule in a file, or of what the order there becomes.
fn shown_schedule<F: Files>(
    alloc: Global,
    files: &mut F,
    saying: Saying,
    text: &[u8],
    p: &Checked,
    schedule: &str,
) -> Result<Written, Refusal>
    requires { parsed text.now ≡ Ok p.now }
    ensures same { F.told files.new ≡ F.told files.old }
    ensures reads { F.reads files.new ≤ F.reads files.old + 1 }
    ensures faults { F.faults files.old ≤ F.faults files.new }
    ensures answer { (contents : Contents) → F.told files.old ≡ Some contents
        → TellsOrUnread (Rose (F.faults files.old) (F.faults files.new))
        (answer_under saying text.now (contents schedule.now) p.now) result }
    ensures status { IfOk result (λ a. IsStatus a.status) }
    ensures texts { F.told files.old ≡ None → (schedule : List ℕ)
        × TellsOrUnread (Rose (F.faults files.old) (F.faults files.new))
        (answer_under saying text.now (Some schedule) p.now) result }
    ensures untold { F.told files.old ≡ None → IsUnreadFault result
        → Rose (F.faults files.old) (F.faults files.new) }
{
    match saying {
        Saying::OfRun(part) => ran_file(alloc, files, part, text, p, schedule),
        Saying::Next => next_file(alloc, files, text, p, schedule),
        Saying::OfOrder(filling) => filled_file(alloc, files, filling, p, schedule),
        Saying::Witness { step, selection } => {
            witness_file(alloc, files, step, selection, p, schedule)
        }
    }
}

// A part of the run of a program under the schedule in a file.
fn ran_file<F: Files>(
    alloc: Global,
    files: &mut F,
    part: Part,
    text: &[u8],
    p: &Checked,
    schedule: &str,
) -> Result<Written, Refusal>
    requires { parsed text.now ≡ Ok p.now }
    ensures same { F.told files.new ≡ F.told files.old }
    ensures reads { F.reads files.new ≤ F.reads files.old + 1 }
    ensures faults { F.faults files.old ≤ F.faults files.new }
    ensures answer { (contents : Contents) → F.told files.old ≡ Some contents
        → TellsOrUnread (Rose (F.faults files.old) (F.faults files.new))
        (told (ran_under part text.now p.now) (schedule_in (contents schedule.now))) result }
    ensures status { IfOk result (λ a. IsStatus a.status) }
    ensures texts { F.told files.old ≡ None → (schedule : List ℕ)
        × TellsOrUnread (Rose (F.faults files.old) (F.faults files.new))
        (told (ran_under part text.now p.now) (schedule_in (Some schedule))) result }
    ensures untold { F.told files.old ≡ None → IsUnreadFault result
        → Rose (F.faults files.old) (F.faults files.new) }
{
    match read_schedule(alloc, files, schedule) {
        Ok(read) => ran(alloc, part, text, p, read.version, &read.schedule),
        Err(refusal) => Err(refusal),
    }
}

// How the run of a program can go on under the schedule in a file.
fn next_file<F: Files>(
    alloc: Global,
    files: &mut F,
    text: &[u8],
    p: &Checked,
    schedule: &str,
) -> Result<Written, Refusal>
    requires { parsed text.now ≡ Ok p.now }
    ensures same { F.told files.new ≡ F.told files.old }
    ensures reads { F.reads files.new ≤ F.reads files.old + 1 }
    ensures faults { F.faults files.old ≤ F.faults files.new }
    ensures answer { (contents : Contents) → F.told files.old ≡ Some contents
        → TellsOrUnread (Rose (F.faults files.old) (F.faults files.new))
        (told (next_under text.now p.now) (schedule_in (contents schedule.now))) result }
    ensures status { IfOk result (λ a. IsStatus a.status) }
    ensures texts { F.told files.old ≡ None → (schedule : List ℕ)
        × TellsOrUnread (Rose (F.faults files.old) (F.faults files.new))
        (told (next_under text.now p.now) (schedule_in (Some schedule))) result }
    ensures untold { F.told files.old ≡ None → IsUnreadFault result
        → Rose (F.faults files.old) (F.faults files.new) }
{
    match read_schedule(alloc, files, schedule) {
        Ok(read) => next_run(alloc, text, p, read.version, &read.schedule),
        Err(refusal) => Err(refusal),
    }
}

// The schedule that shows the race of a step of the run of a program under the schedule in a file.
fn witness_file<F: Files>(
    alloc: Global,
    files: &mut F,
    step: u32,
    selection: Selection,
    p: &Checked,
    schedule: &str,
) -> Result<Written, Refusal>
    ensures same { F.told files.new ≡ F.told files.old }
    ensures reads { F.reads files.new ≤ F.reads files.old + 1 }
    ensures faults { F.faults files.old ≤ F.faults files.new }
    ensures answer { (contents : Contents) → F.told files.old ≡ Some contents
        → TellsOrUnread (Rose (F.faults files.old) (F.faults files.new))
        (told (witness_under step selection p.now) (schedule_in (contents schedule.now))) result }
    ensures status { IfOk result (λ a. IsStatus a.status) }
    ensures texts { F.told files.old ≡ None → (schedule : List ℕ)
        × TellsOrUnread (Rose (F.faults files.old) (F.faults files.new))
        (told (witness_under step selection p.now) (schedule_in (Some schedule))) result }
    ensures untold { F.told files.old ≡ None → IsUnreadFault result
        → Rose (F.faults files.old) (F.faults files.new) }
{
    match read_schedule(alloc, files, schedule) {
        Ok(read) => witness_run(alloc, step, selection, p, &read),
        Err(refusal) => Err(refusal),
    }
}

// The steps that are told for a picture: those that are asked for, or all.
fn drawn_between(asked: Option<Span>) -> Between
    ensures { result ≡ drawn_between asked }
{
    match asked {
        None => Between { from: 0, to: ALL },
        Some(span) => Between {
            from: span.from,
            to: span.to,
        },
    }
}

// The steps that are told for a part: all for JSON, none for races and for an order.
fn told_for(part: Part) -> Option<Between>
    ensures { result ≡ told_for part }
{
    match part {
        Part::Steps { from, to } => Some(Between { from, to }),
        Part::Json => Some(Between { from: 0, to: ALL }),
        Part::Races | Part::TwoOrders | Part::Order { .. } => None,
        Part::Picture { asked } => Some(drawn_between(asked)),
    }
}

// The allocations of the start of a run, which got these picks.
fn first_rows(alloc: Global, p: &Checked, picks: &[u64]) -> Result<Vec<Allocation>, AllocError>
    ensures { IfOk result (λ rows. rows.items ≡ first_rows p.now picks.now) }
{
    let asks = start_asks(alloc, p)?;
    start_rows(alloc, p.program(), asks.as_slice(), picks)
}

// The text of a part of the run of a program under a schedule whose text is in a version.
fn ran(
    alloc: Global,
    part: Part,
    text: &[u8],
    p: &Checked,
    v: Version,
    w: &Schedule,
) -> Result<Written, Refusal>
    requires few { length w.now.entries ≤ 2 ^ 22 }
    requires parsed { parsed text.now ≡ Ok p.now }
    ensures answer { Tells (ran_answer part text.now p.now v w.now) result }
    ensures status { IfOk result (λ a. IsStatus a.status) }
    ensures read { ¬ IsUnreadFault result }
{
    match told_for(part) {
        Some(asked) => ran_told(alloc, part, asked, text, p, v, w),
        None => ran_stands(alloc, part, text, p, v, w),
    }
}

// The same of a part for which these steps are told.
fn ran_told(
    alloc: Global,
    part: Part,
    asked: Between,
    text: &[u8],
    p: &Checked,
    v: Version,
    w: &Schedule,
) -> Result<Written, Refusal>
    requires few { length w.now.entries ≤ 2 ^ 22 }
    requires parsed { parsed text.now ≡ Ok p.now }
    requires asked { told_for part ≡ Some asked }
    ensures answer { Tells (ran_answer part text.now p.now v w.now) result }
    ensures status { IfOk result (λ a. IsStatus a.status) }
    ensures read { ¬ IsUnreadFault result }
{
    let mut rows = first_rows(alloc, p, w.start.as_slice())?;
    let mut steps = Vec::new(alloc);
    let mut kept = Clocked::new(alloc);
    let outcome = tell(alloc, p, w, asked, &mut kept, &mut rows, &mut steps);
    let told = steps.as_slice();
    ended(alloc, part, text, p, v, w, outcome, &kept, rows, told, &[])
}

// The same of a part that asks where threads stood.
fn ran_stands(
    alloc: Global,
    part: Part,
    text: &[u8],
    p: &Checked,
    v: Version,
    w: &Schedule,
) -> Result<Written, Refusal>
    requires few { length w.now.entries ≤ 2 ^ 22 }
    requires parsed { parsed text.now ≡ Ok p.now }
    requires asked { told_for part ≡ None }
    ensures answer { Tells (ran_answer part text.now p.now v w.now) result }
    ensures status { IfOk result (λ a. IsStatus a.status) }
    ensures read { ¬ IsUnreadFault result }
{
    if lists_races(part) {
        if is_of_first(w.entries.as_slice()) {
            return ran_alone(alloc, part, text, p, v, w);
        }
    }
    let mut stood = Vec::new(alloc);
    let mut kept = Clocked::new(alloc);
    let outcome = stands(alloc, p, w, &mut kept, &mut stood);
    let rows = Vec::new(alloc);
    ended(
        alloc,
        part,
        text,
        p,
        v,
        w,
        outcome,
        &kept,
        rows,
        &[],
        stood.as_slice(),
    )
}

// Whether a part tells of races alone. Any other is told of the run with more kept of it.
fn lists_races(part: Part) -> bool
    ensures yes { IsTrue result → IsOfRaces part }
    ensures all { IsOfRaces part → IsTrue result }
{
    match part {
        Part::Races => true,
        Part::TwoOrders => true,
        _ => false,
    }
}

// The same of races under a schedule of thread 0 alone. One thread has no race, so that nothing is kept of its steps.
fn ran_alone(
    alloc: Global,
    part: Part,
    text: &[u8],
    p: &Checked,
    v: Version,
    w: &Schedule,
) -> Result<Written, Refusal>
    requires few { length w.now.entries ≤ 2 ^ 22 }
    requires parsed { parsed text.now ≡ Ok p.now }
    requires races { IsOfRaces part }
    requires alone { are_of_first w.now.entries ≡ true }
    ensures answer { Tells (ran_answer part text.now p.now v w.now) result }
    ensures status { IfOk result (λ a. IsStatus a.status) }
    ensures read { ¬ IsUnreadFault result }
{
    let mut nothing = Nothing;
    let outcome = run(alloc, p, w, &mut nothing);
    let kept = Clocked::new(alloc);
    let rows = Vec::new(alloc);
    ended(alloc, part, text, p, v, w, outcome, &kept, rows, &[], &[])
}

// The same of a run that came to this, of which this was told.
fn ended(
    alloc: Global,
    part: Part,
    text: &[u8],
    p: &Checked,
    v: Version,
    w: &Schedule,
    outcome: Result<Machine<'_>, RunFault>,
    kept: &Clocked,
    rows: Vec<Allocation>,
    told: &[ToldStep],
    stood: &[Option<Stand>],
) -> Result<Written, Refusal>
    requires few { length w.now.entries ≤ 2 ^ 22 }
    requires parsed { parsed text.now ≡ Ok p.now }
    requires run { RunAnswer p.now w.now outcome }
    requires place { HasPlace w.now outcome }
    requires feet { OnOk outcome (length kept.now < 2 ^ 32) }
    requires told { IsToldAs part text.now p.now w.now rows.items told.now stood.now kept.now outcome }
    ensures answer { Tells (ran_answer part text.now p.now v w.now) result }
    ensures status { IfOk result (λ a. IsStatus a.status) }
    ensures read { ¬ IsUnreadFault result }
{
    match outcome {
        Ok(machine) => answered(laid(alloc, part, text, p, w, &machine, kept, rows, told, stood)),
        Err(fault) => Err(refusal_of(v, w, fault)),
    }
}
