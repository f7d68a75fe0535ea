//! What is said of the program in a file by itself, and of a schedule of it in another.
ghost use Rattle.std.specs.Prelude.{◌≡◌, ℕ, ◌+◌, ◌≤◌, List, None, Some, IfOk, IsErrOf, IsSome, length};
ghost use Rattle.mr_io.specs.Counts.{Rose};
ghost use Rattle.mr_io.specs.Files.{Contents, IsLonger};
ghost use Rattle.mr_input.specs.Answer.{Tells, TellsOrUnread};
ghost use Rattle.mr_input.specs.Inputs.{IsUnreadFault};
ghost use Rattle.mr_refusals.specs.Answers.{program_answer, schedule_answer};
ghost use Rattle.mr_show.specs.Answering.{IsChecked, IsCheckedUnder, IsShownStatus};
ghost use Rattle.mr_show.specs.Checked.{checked_under};

use mr_input::{Refusal, Written};
use mr_io::{FileFault, Files};
use mr_lex::LONG_TEXT;
use mr_refusals::{Source, check_program, check_schedule};
use mr_sched::TOO_LONG;
use std::alloc::Global;

// The bytes that the text of a program and that of a schedule have at most.
const MAX_PROGRAM: usize = 1 << 20;

const MAX_SCHEDULE: usize = 1 << 26;

// The bytes of a file that has no more than so many.
fn read_whole<F: Files>(
    alloc: Global,
    files: &mut F,
    name: &str,
    max: usize,
) -> Result<Vec<u8>, FileFault>
    ensures same { F.told files.new ≡ F.told files.old }
    ensures reads { F.reads files.new ≤ F.reads files.old + 1 }
    ensures faults { F.faults files.old ≤ F.faults files.new }
    ensures few { IfOk result (λ text. length text.items ≤ max) }
    ensures whole { (contents : Contents) → F.told files.old ≡ Some contents
        → IfOk result (λ text. contents name.now ≡ Some text.items) }
    ensures missing { (contents : Contents) → F.told files.old ≡ Some contents
        → IsErrOf result FileFault.Missing → contents name.now ≡ None }
    ensures long { (contents : Contents) → F.told files.old ≡ Some contents
        → IsErrOf result FileFault.Long → IsLonger contents name.now max }
    ensures telling { IsErrOf result FileFault.Missing → IsSome (F.told files.old) }
    ensures failed { IsErrOf result FileFault.Failed → Rose (F.faults files.old) (F.faults files.new) }
{
    let mut text = Vec::new(alloc);
    match files.read(alloc, name, max as u64, &mut text) {
        Ok(()) => {
            if text.len() > max {
                Err(FileFault::Long)
            } else {
                Ok(text)
            }
        }
        Err(fault) => Err(fault),
    }
}

// The text of a program that is too long.
fn long_program() -> Refusal
    ensures { result ≡ Refusal.Text 1 1 3 }
{
    Refusal::Text {
        line: 1,
        col: 1,
        code: LONG_TEXT,
    }
}

// That of a schedule that is.
fn long_schedule() -> Refusal
    ensures { result ≡ Refusal.Schedule 1 52 None }
{
    Refusal::Schedule {
        line: 1,
        code: TOO_LONG,
        earlier: None,
    }
}

/// What is said of the program in a file, by itself.
pub(crate) fn checked_file<F: Files>(
    alloc: Global,
    files: &mut F,
    program: &str,
) -> Result<Written, Refusal>
    ensures same { F.told files.new ≡ F.told files.old }
    ensures reads { F.reads files.new ≤ F.reads files.old + 1 }
    ensures faults { F.faults files.old ≤ F.faults files.new }
    ensures answer { (contents : Contents) → F.told files.old ≡ Some contents
        → IsChecked (Rose (F.faults files.old) (F.faults files.new)) program.now (contents program.now) result }
    ensures status { IfOk result (λ a. IsShownStatus a.status) }
    ensures texts { F.told files.old ≡ None → (text : List ℕ)
        × IsChecked (Rose (F.faults files.old) (F.faults files.new)) program.now (Some text) result }
    ensures untold { F.told files.old ≡ None → IsUnreadFault result
        → Rose (F.faults files.old) (F.faults files.new) }
{
    match read_whole(alloc, files, program, MAX_PROGRAM) {
        Ok(text) => checked(alloc, program, text.as_slice()),
        Err(FileFault::Failed) | Err(FileFault::Missing) => Err(Refusal::ReadProgram),
        Err(FileFault::Long) => Err(long_program()),
        Err(FileFault::Memory) => Err(Refusal::Memory),
    }
}

// What is said of the program of a text in a file of this name.
fn checked(alloc: Global, name: &str, text: &[u8]) -> Result<Written, Refusal>
    ensures answer { Tells (program_answer name.now text.now) result }
    ensures status { IfOk result (λ a. IsShownStatus a.status) }
    ensures read { ¬ IsUnreadFault result }
{
    let written = check_program(alloc, Source { name, text })?;
    Ok(written)
}

/// What is said of a schedule in one file of the program in another.
pub(crate) fn checked_files<F: Files>(
    alloc: Global,
    files: &mut F,
    program: &str,
    schedule: &str,
) -> Result<Written, Refusal>
    ensures same { F.told files.new ≡ F.told files.old }
    ensures reads { F.reads files.new ≤ F.reads files.old + 2 }
    ensures faults { F.faults files.old ≤ F.faults files.new }
    ensures answer { (contents : Contents) → F.told files.old ≡ Some contents
        → IsCheckedUnder (Rose (F.faults files.old) (F.faults files.new)) program.now schedule.now
        (contents program.now) (contents schedule.now) result }
    ensures status { IfOk result (λ a. IsShownStatus a.status) }
    ensures texts { F.told files.old ≡ None → (text : List ℕ) × (spelled : List ℕ)
        × IsCheckedUnder (Rose (F.faults files.old) (F.faults files.new)) program.now schedule.now
        (Some text) (Some spelled) result }
    ensures untold { F.told files.old ≡ None → IsUnreadFault result
        → Rose (F.faults files.old) (F.faults files.new) }
{
    match read_whole(alloc, files, program, MAX_PROGRAM) {
        Ok(text) => checked_under(alloc, files, program, text.as_slice(), schedule),
        Err(FileFault::Failed) | Err(FileFault::Missing) => Err(Refusal::ReadProgram),
        Err(FileFault::Long) => Err(long_program()),
        Err(FileFault::Memory) => Err(Refusal::Memory),
    }
}

// The same behind the text of the program.
fn checked_under<F: Files>(
    alloc: Global,
    files: &mut F,
    program: &str,
    text: &[u8],
    schedule: &str,
) -> Result<Written, Refusal>
    ensures same { F.told files.new ≡ F.told files.old }
    ensures reads { F.reads files.new ≤ F.reads files.old + 1 }
    ensures faults { F.faults files.old ≤ F.faults files.new }
    ensures answer { (contents : Contents) → F.told files.old ≡ Some contents
        → TellsOrUnread (Rose (F.faults files.old) (F.faults files.new))
        (checked_under program.now text.now schedule.now (contents schedule.now)) result }
    ensures status { IfOk result (λ a. IsShownStatus a.status) }
    ensures texts { F.told files.old ≡ None → (spelled : List ℕ)
        × TellsOrUnread (Rose (F.faults files.old) (F.faults files.new))
        (checked_under program.now text.now schedule.now (Some spelled)) result }
    ensures untold { F.told files.old ≡ None → IsUnreadFault result
        → Rose (F.faults files.old) (F.faults files.new) }
{
    match read_whole(alloc, files, schedule, MAX_SCHEDULE) {
        Ok(spelled) => checked_pair(alloc, program, text, schedule, spelled.as_slice()),
        Err(FileFault::Failed) | Err(FileFault::Missing) => Err(Refusal::ReadSchedule),
        Err(FileFault::Long) => Err(long_schedule()),
        Err(FileFault::Memory) => Err(Refusal::Memory),
    }
}

// The same of the texts of both, in files of these names.
fn checked_pair(
    alloc: Global,
    name: &str,
    text: &[u8],
    schedule: &str,
    spelled: &[u8],
) -> Result<Written, Refusal>
    ensures answer { Tells (schedule_answer name.now text.now schedule.now spelled.now) result }
    ensures status { IfOk result (λ a. IsShownStatus a.status) }
    ensures read { ¬ IsUnreadFault result }
{
    let program = Source { name, text };
    let schedule = Source {
        name: schedule,
        text: spelled,
    };
    let written = check_schedule(alloc, program, schedule)?;
    Ok(written)
}
