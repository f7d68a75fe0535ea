//! The program and the schedule that a command names, read from files.
ghost use Rattle.std.specs.Prelude.{◌≡◌, ℕ, ◌+◌, ◌^◌, ◌≤◌, List, None, Some, Err, length, IfErr, IfOk, OnOk};
ghost use Rattle.mr_ast.specs.Shaped.{Shaped};
ghost use Rattle.mr_io.specs.Counts.{Rose};
ghost use Rattle.mr_io.specs.Files.{Contents};
ghost use Rattle.mr_parse.specs.GrammarParsing.{parsed};
ghost use Rattle.mr_sched.specs.Reading.{schedule_of};
ghost use Rattle.mr_input.specs.Inputs.{denoted, program_in, schedule_in, spelled, text_refusal};
ghost use Rattle.mr_input.specs.Inputs.{Gives, IsNoText, IsRead, IsUnreadFault};
ghost use Rattle.mr_input.specs.declared.refusal.Refusal.TheVariants.{ReadProgram, ReadSchedule};

use crate::refusal::Refusal;
use mr_ast::Program;
use mr_io::{FileFault, Files};
use mr_lex::{LONG_TEXT, TextFault};
use mr_parse::ParseFault;
use mr_sched::{Read, SchedFault, TOO_LONG};
use std::alloc::Global;

// The bytes that a program's text and a schedule's may have at most.
const MAX_PROGRAM: u64 = 1 << 20;

const MAX_SCHEDULE: u64 = 1 << 26;

/// The text of a program in a file, which is no longer than a program's may be.
pub fn read_text<F: Files>(alloc: Global, files: &mut F, name: &str) -> Result<Vec<u8>, Refusal>
    ensures same { F.told files.new ≡ F.told files.old }
    ensures reads { F.reads files.new ≤ F.reads files.old + 1 }
    ensures faults { F.faults files.old ≤ F.faults files.new }
    ensures memory { result ≡ Err Refusal.Memory → F.faults files.new ≡ F.faults files.old }
    ensures quiet { OnOk result (F.faults files.new ≡ F.faults files.old) }
    ensures whole { (contents : Contents) → F.told files.old ≡ Some contents
        → IfOk result (λ text. contents name.now ≡ Some text.items) }
    ensures refused { (contents : Contents) → F.told files.old ≡ Some contents
        → IfErr result (IsNoText (Rose (F.faults files.old) (F.faults files.new)) (contents name.now)) }
    ensures texts { F.told files.old ≡ None → IfErr result (λ refusal. (bytes : List ℕ)
        × IsNoText (Rose (F.faults files.old) (F.faults files.new)) (Some bytes) refusal) }
    ensures untold { F.told files.old ≡ None → IsUnreadFault result
        → Rose (F.faults files.old) (F.faults files.new) }
{
    let mut text = Vec::new(alloc);
    match files.read(alloc, name, MAX_PROGRAM, &mut text) {
        Ok(()) => Ok(text),
        Err(FileFault::Failed) | Err(FileFault::Missing) => Err(Refusal::ReadProgram),
        Err(FileFault::Long) => Err(Refusal::Text {
            line: 1,
            col: 1,
            code: LONG_TEXT,
        }),
        Err(FileFault::Memory) => Err(Refusal::Memory),
    }
}

/// The program in a file.
pub fn read_program<F: Files>(alloc: Global, files: &mut F, name: &str) -> Result<Program, Refusal>
    ensures same { F.told files.new ≡ F.told files.old }
    ensures reads { F.reads files.new ≤ F.reads files.old + 1 }
    ensures faults { F.faults files.old ≤ F.faults files.new }
    ensures memory { result ≡ Err Refusal.Memory → F.faults files.new ≡ F.faults files.old }
    ensures shaped { IfOk result Shaped }
    ensures read { (contents : Contents) → F.told files.old ≡ Some contents
        → IsRead (Rose (F.faults files.old) (F.faults files.new)) ReadProgram result (program_in (contents name.now)) }
    ensures texts { F.told files.old ≡ None → (bytes : List ℕ)
        × IsRead (Rose (F.faults files.old) (F.faults files.new)) ReadProgram result (program_in (Some bytes)) }
    ensures untold { F.told files.old ≡ None → IsUnreadFault result
        → Rose (F.faults files.old) (F.faults files.new) }
{
    match read_text(alloc, files, name) {
        Ok(text) => program_of(alloc, text.as_slice()),
        Err(refusal) => Err(refusal),
    }
}

/// The program that a text denotes, or the text's first fault.
pub fn program_of(alloc: Global, text: &[u8]) -> Result<Program, Refusal>
    ensures given { Gives result (denoted (parsed text.now)) }
    ensures read { ¬ IsUnreadFault result }
    ensures shaped { IfOk result Shaped }
{
    match mr_parse::parse(alloc, text) {
        Ok(program) => Ok(program),
        Err(ParseFault::Text(fault)) => Err(wrong(fault)),
        Err(ParseFault::Memory) => Err(Refusal::Memory),
    }
}

// A program's text that is wrong.
fn wrong(fault: TextFault) -> Refusal
    ensures { result ≡ text_refusal fault }
{
    Refusal::Text {
        line: fault.line,
        col: fault.col,
        code: fault.code,
    }
}

/// The schedule in a file, and the version of its text.
pub fn read_schedule<F: Files>(alloc: Global, files: &mut F, name: &str) -> Result<Read, Refusal>
    ensures same { F.told files.new ≡ F.told files.old }
    ensures reads { F.reads files.new ≤ F.reads files.old + 1 }
    ensures faults { F.faults files.old ≤ F.faults files.new }
    ensures memory { result ≡ Err Refusal.Memory → F.faults files.new ≡ F.faults files.old }
    ensures second { ¬ result ≡ Err Refusal.ReadProgram }
    ensures few { IfOk result (λ r. length r.schedule.entries ≤ 2 ^ 22) }
    ensures read { (contents : Contents) → F.told files.old ≡ Some contents
        → IsRead (Rose (F.faults files.old) (F.faults files.new))
        ReadSchedule result (schedule_in (contents name.now)) }
    ensures texts { F.told files.old ≡ None → (bytes : List ℕ)
        × IsRead (Rose (F.faults files.old) (F.faults files.new)) ReadSchedule result (schedule_in (Some bytes)) }
    ensures untold { F.told files.old ≡ None → IsUnreadFault result
        → Rose (F.faults files.old) (F.faults files.new) }
{
    let mut text = Vec::new(alloc);
    match files.read(alloc, name, MAX_SCHEDULE, &mut text) {
        Ok(()) => schedule(alloc, text.as_slice()),
        Err(FileFault::Failed) | Err(FileFault::Missing) => Err(Refusal::ReadSchedule),
        Err(FileFault::Long) => Err(broken(1, TOO_LONG)),
        Err(FileFault::Memory) => Err(Refusal::Memory),
    }
}

// The schedule that a text spells, and the version of the text.
fn schedule(alloc: Global, text: &[u8]) -> Result<Read, Refusal>
    ensures given { Gives result (spelled (schedule_of text.now)) }
    ensures read { ¬ IsUnreadFault result }
    ensures few { IfOk result (λ r. length r.schedule.entries ≤ 2 ^ 22) }
{
    match mr_sched::read_version(alloc, text) {
        Ok(read) => Ok(read),
        Err(SchedFault::Bad { line, code }) => Err(broken(line, code)),
        Err(SchedFault::Memory) => Err(Refusal::Memory),
    }
}

// A schedule's text that is wrong at this line.
fn broken(line: u32, code: u8) -> Refusal
    ensures { result ≡ Refusal.Schedule line code None }
{
    Refusal::Schedule {
        line,
        code,
        earlier: None,
    }
}
