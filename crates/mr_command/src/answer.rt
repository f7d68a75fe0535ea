//! The answer to a command: what is written, and the exit status, or why there is none.
ghost use Rattle.std.specs.Prelude.{◌≡◌, ◌+◌, ◌≤◌, ℕ, List, [], None, Some, Ok, Err, IfOk};
ghost use Rattle.mr_io.specs.Counts.{Rose};
ghost use Rattle.mr_io.specs.Files.{Contents};
ghost use Rattle.mr_ast.specs.declared.program.Program.{Program as AstProgram};
ghost use Rattle.mr_ast.specs.Shaped.{Shaped};
ghost use Rattle.mr_sched.specs.declared.version.Read.{Read as Spelled};
ghost use Rattle.mr_typing.specs.Walk.{faults_of};
ghost use Rattle.mr_input.specs.Answer.{IsStatus, Tells, TellsOrUnread};
ghost use Rattle.mr_input.specs.Inputs.{program_in, schedule_in, AsksForSchedule, IsUnreadFault};
ghost use Rattle.mr_answer.specs.Answers.{big_answer};
ghost use Rattle.mr_command.specs.Answer.{canonical, report_under, said, said_answer, upgrade_answer};
ghost use Rattle.mr_command.specs.Answering.{IsAnswered, IsAnsweredOverTexts, IsFormOrReport, IsReported, IsRunOverText, IsSaid, IsUpgraded};
ghost use Rattle.mr_command.specs.Command.{asked, named_files, IsBounded, IsWithin, NamesProgram, OfProgram, OfSchedule, Run};
ghost use Rattle.mr_answer.specs.Spelled.{IsSpelled};
ghost use Rattle.mr_command.specs.Showing.{Shows};

use crate::command::{Command, Saying};
use crate::listed::listed_file;
use mr_answer::{Format, drawn, report_run, summary};
use mr_ast::Program;
use mr_gen::program;
use mr_input::{Refusal, Written, answered, form_answer, read_program, read_schedule};
use mr_io::Files;
use mr_sched::{Read, Version, print_version};
use mr_wf::{Checked, WfFault, well_formed};
use std::alloc::Global;

/// The answer to a command.
pub fn answer<F: Files>(
    alloc: Global,
    files: &mut F,
    command: Command<'_>,
) -> Result<Written, Refusal>
    requires { IsBounded (asked command) }
    ensures same { F.told files.new ≡ F.told files.old }
    ensures reads { F.reads files.new ≤ F.reads files.old + named_files (Some (asked command.entry)) }
    ensures once { (contents : Contents) (program : List ℕ) → F.told files.old ≡ Some contents
        → NamesProgram (Some (asked command.entry)) program → ¬ AsksForSchedule (contents program)
        → F.reads files.new ≤ F.reads files.old + 1 }
    ensures first { result ≡ Err Refusal.ReadProgram → F.reads files.new ≤ F.reads files.old + 1 }
    ensures faults { F.faults files.old ≤ F.faults files.new }
    ensures answer { (contents : Contents) → F.told files.old ≡ Some contents
        → IsAnswered contents (asked command.entry) (Rose (F.faults files.old) (F.faults files.new)) result }
    ensures shows { (contents : Contents) → F.told files.old ≡ Some contents
        → Shows contents (asked command.entry) result }
    ensures status { IfOk result (λ a. IsStatus a.status) }
    ensures texts { F.told files.old ≡ None
        → IsAnsweredOverTexts (asked command.entry) (Rose (F.faults files.old) (F.faults files.new)) result }
    ensures untold { F.told files.old ≡ None → IsUnreadFault result
        → Rose (F.faults files.old) (F.faults files.new) }
{
    match command {
        Command::Run {
            format,
            program,
            schedule,
        } => report_files(alloc, files, format, program, schedule),
        Command::OfProgram { saying, program } => said_file(alloc, files, saying, program),
        Command::OfSchedule { schedule } => upgraded_file(alloc, files, schedule),
        Command::OfTrace { trace } => listed_file(alloc, files, trace),
        Command::OfNumber { number } => big(alloc, number),
    }
}

// The report of the run of the program in a file under the schedule in another.
fn report_files<F: Files>(
    alloc: Global,
    files: &mut F,
    format: Format,
    program: &str,
    schedule: &str,
) -> Result<Written, Refusal>
    ensures same { F.told files.new ≡ F.told files.old }
    ensures reads { F.reads files.new ≤ F.reads files.old + 2 }
    ensures once { (contents : Contents) → F.told files.old ≡ Some contents → ¬ AsksForSchedule (contents program.now)
        → F.reads files.new ≤ F.reads files.old + 1 }
    ensures first { result ≡ Err Refusal.ReadProgram → F.reads files.new ≤ F.reads files.old + 1 }
    ensures faults { F.faults files.old ≤ F.faults files.new }
    ensures answer { (contents : Contents) → F.told files.old ≡ Some contents
        → IsReported contents format program.now schedule.now (Rose (F.faults files.old) (F.faults files.new)) result }
    ensures spelled { (contents : Contents) → F.told files.old ≡ Some contents → (p : AstProgram) (r : Spelled)
        → program_in (contents program.now) ≡ Ok p → faults_of p ≡ [] → schedule_in (contents schedule.now) ≡ Ok r
        → IsSpelled format p r.schedule result }
    ensures status { IfOk result (λ a. IsStatus a.status) }
    ensures texts { F.told files.old ≡ None
        → IsAnsweredOverTexts (Run format program.now schedule.now)
        (Rose (F.faults files.old) (F.faults files.new)) result }
    ensures untold { F.told files.old ≡ None → IsUnreadFault result
        → Rose (F.faults files.old) (F.faults files.new) }
{
    match read_program(alloc, files, program) {
        Ok(p) => report_program(alloc, files, format, p, schedule),
        Err(refusal) => Err(refusal),
    }
}

// The report of the run of a program that breaks no rule under the schedule in a file, and else the line of the first
// rule that it breaks.
#[tactic(auto, using(mr_input::proofs::AnswerLaws::broken_told))]
fn report_program<F: Files>(
    alloc: Global,
    files: &mut F,
    format: Format,
    p: Program,
    schedule: &str,
) -> Result<Written, Refusal>
    requires { Shaped p }
    ensures same { F.told files.new ≡ F.told files.old }
    ensures reads { F.reads files.new ≤ F.reads files.old + 1 }
    ensures none { ¬ faults_of p ≡ [] → F.reads files.new ≤ F.reads files.old }
    ensures second { ¬ result ≡ Err Refusal.ReadProgram }
    ensures faults { F.faults files.old ≤ F.faults files.new }
    ensures answer { (contents : Contents) → F.told files.old ≡ Some contents
        → IsFormOrReport (Rose (F.faults files.old) (F.faults files.new)) format
        (contents schedule.now) p result }
    ensures spelled { (contents : Contents) → F.told files.old ≡ Some contents → (r : Spelled)
        → schedule_in (contents schedule.now) ≡ Ok r → faults_of p ≡ [] → IsSpelled format p r.schedule result }
    ensures status { IfOk result (λ a. IsStatus a.status) }
    ensures texts { F.told files.old ≡ None
        → IsRunOverText (Rose (F.faults files.old) (F.faults files.new)) format p result }
    ensures untold { F.told files.old ≡ None → IsUnreadFault result
        → Rose (F.faults files.old) (F.faults files.new) }
{
    match well_formed(alloc, p) {
        Ok(checked) => report_schedule(alloc, files, format, &checked, schedule),
        Err(WfFault::Form { fault, program }) => form_answer(alloc, &program, fault),
        Err(WfFault::Memory) => Err(Refusal::Memory),
    }
}

// The report of the run of a program under the schedule in a file.
fn report_schedule<F: Files>(
    alloc: Global,
    files: &mut F,
    format: Format,
    p: &Checked,
    schedule: &str,
) -> Result<Written, Refusal>
    ensures same { F.told files.new ≡ F.told files.old }
    ensures reads { F.reads files.new ≤ F.reads files.old + 1 }
    ensures second { ¬ result ≡ Err Refusal.ReadProgram }
    ensures faults { F.faults files.old ≤ F.faults files.new }
    ensures answer { (contents : Contents) → F.told files.old ≡ Some contents
        → TellsOrUnread (Rose (F.faults files.old) (F.faults files.new))
        (report_under format (contents schedule.now) p.now) result }
    ensures spelled { (contents : Contents) → F.told files.old ≡ Some contents → (r : Spelled)
        → schedule_in (contents schedule.now) ≡ Ok r → IsSpelled format p.now r.schedule result }
    ensures status { IfOk result (λ a. IsStatus a.status) }
    ensures texts { F.told files.old ≡ None → (text : List ℕ)
        × TellsOrUnread (Rose (F.faults files.old) (F.faults files.new)) (report_under format (Some text) p.now)
        result }
    ensures untold { F.told files.old ≡ None → IsUnreadFault result
        → Rose (F.faults files.old) (F.faults files.new) }
{
    match read_schedule(alloc, files, schedule) {
        Ok(read) => report_run(alloc, format, p, read.version, &read.schedule),
        Err(refusal) => Err(refusal),
    }
}

// What is said of the program in a file, where it breaks no rule.
fn said_file<F: Files>(
    alloc: Global,
    files: &mut F,
    saying: Saying,
    program: &str,
) -> Result<Written, Refusal>
    requires { IsWithin saying }
    ensures same { F.told files.new ≡ F.told files.old }
    ensures reads { F.reads files.new ≤ F.reads files.old + 1 }
    ensures faults { F.faults files.old ≤ F.faults files.new }
    ensures answer { (contents : Contents) → F.told files.old ≡ Some contents
        → IsSaid saying contents program.now (Rose (F.faults files.old) (F.faults files.new)) result }
    ensures status { IfOk result (λ a. IsStatus a.status) }
    ensures texts { F.told files.old ≡ None
        → IsAnsweredOverTexts (OfProgram saying program.now) (Rose (F.faults files.old) (F.faults files.new)) result }
    ensures untold { F.told files.old ≡ None → IsUnreadFault result
        → Rose (F.faults files.old) (F.faults files.new) }
{
    match read_program(alloc, files, program) {
        Ok(p) => judged(alloc, saying, p),
        Err(refusal) => Err(refusal),
    }
}

// What is said of a program that breaks no rule, and else the line of the first rule that it breaks.
fn judged(alloc: Global, saying: Saying, p: Program) -> Result<Written, Refusal>
    requires shaped { Shaped p }
    requires within { IsWithin saying }
    ensures answer { Tells (said_answer saying p) result }
    ensures status { IfOk result (λ a. IsStatus a.status) }
    ensures read { ¬ IsUnreadFault result }
{
    match well_formed(alloc, p) {
        Ok(checked) => said(alloc, saying, &checked),
        Err(WfFault::Form { fault, program }) => form_answer(alloc, &program, fault),
        Err(WfFault::Memory) => Err(Refusal::Memory),
    }
}

// What is said of a program that breaks no rule.
fn said(alloc: Global, saying: Saying, p: &Checked) -> Result<Written, Refusal>
    requires { IsWithin saying }
    ensures answer { Tells (said saying p.now) result }
    ensures status { IfOk result (λ a. IsStatus a.status) }
    ensures read { ¬ IsUnreadFault result }
{
    match saying {
        Saying::Canonical => canonical(alloc, p.program()),
        Saying::Drawn { number, most } => Ok(drawn(alloc, p, number, most)?),
    }
}

// The canonical text of a program.
fn canonical(alloc: Global, p: &Program) -> Result<Written, Refusal>
    ensures answer { Tells (canonical p.now) result }
    ensures status { IfOk result (λ a. IsStatus a.status) }
    ensures read { ¬ IsUnreadFault result }
{
    let mut text = Vec::new(alloc);
    mr_print::print(alloc, p, &mut text)?;
    Ok(Written { text, status: 0 })
}

// The schedule in a file, written in version 2.
fn upgraded_file<F: Files>(alloc: Global, files: &mut F, schedule: &str) -> Result<Written, Refusal>
    ensures same { F.told files.new ≡ F.told files.old }
    ensures reads { F.reads files.new ≤ F.reads files.old + 1 }
    ensures faults { F.faults files.old ≤ F.faults files.new }
    ensures answer { (contents : Contents) → F.told files.old ≡ Some contents
        → IsUpgraded contents schedule.now (Rose (F.faults files.old) (F.faults files.new)) result }
    ensures status { IfOk result (λ a. IsStatus a.status) }
    ensures texts { F.told files.old ≡ None
        → IsAnsweredOverTexts (OfSchedule schedule.now) (Rose (F.faults files.old) (F.faults files.new)) result }
    ensures untold { F.told files.old ≡ None → IsUnreadFault result
        → Rose (F.faults files.old) (F.faults files.new) }
{
    match read_schedule(alloc, files, schedule) {
        Ok(read) => upgraded(alloc, &read),
        Err(refusal) => Err(refusal),
    }
}

// The text in version 2 of a schedule that was read.
fn upgraded(alloc: Global, read: &Read) -> Result<Written, Refusal>
    ensures answer { Tells (upgrade_answer read.now) result }
    ensures status { IfOk result (λ a. IsStatus a.status) }
    ensures read { ¬ IsUnreadFault result }
{
    let mut text = Vec::new(alloc);
    print_version(alloc, Version::Two, &read.schedule, &mut text)?;
    Ok(Written { text, status: 0 })
}

// The summary of a run of the program of a number.
fn big(alloc: Global, number: u64) -> Result<Written, Refusal>
    ensures answer { Tells (big_answer number) result }
    ensures status { IfOk result (λ a. IsStatus a.status) }
    ensures read { ¬ IsUnreadFault result }
{
    let p = program(alloc, number)?;
    match well_formed(alloc, p) {
        Ok(checked) => answered(summary(alloc, &checked, number)),
        Err(WfFault::Form { .. }) => unreachable!(),
        Err(WfFault::Memory) => Err(Refusal::Memory),
    }
}
