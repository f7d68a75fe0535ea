//! The answer to a form: what is written, and the exit status, or why there is none.
ghost use Rattle.std.specs.Prelude.{◌≡◌, ◌+◌, ◌≤◌, None, Some, IfOk};
ghost use Rattle.mr_io.specs.Counts.{Rose};
ghost use Rattle.mr_io.specs.Files.{Contents};
ghost use Rattle.mr_input.specs.Answer.{IsStatus, Tells};
ghost use Rattle.mr_input.specs.Inputs.{IsUnreadFault};
ghost use Rattle.mr_why.specs.Why.{entry_in, entry_of};
ghost use Rattle.mr_show.specs.Answer.{help_answer, said_answer, unsaid_answer, why_answer};
ghost use Rattle.mr_show.specs.Answering.{IsAnswered, IsAnsweredOverTexts, IsShownStatus};
ghost use Rattle.mr_show.specs.Form.{asked};

use crate::checked::{checked_file, checked_files};
use crate::form::Form;
use crate::hunted::hunted_file;
use crate::traced::{bare_file, shown_files};
use mr_input::{Refusal, Written, push_number};
use mr_io::Files;
use mr_why::{Why, entry};
use std::alloc::{AllocError, Global};

/// The answer to a form.
pub(crate) fn answer<F: Files>(
    alloc: Global,
    files: &mut F,
    form: Form<'_>,
) -> Result<Written, Refusal>
    ensures same { F.told files.new ≡ F.told files.old }
    ensures reads { F.reads files.new ≤ F.reads files.old + 2 }
    ensures faults { F.faults files.old ≤ F.faults files.new }
    ensures answer { (contents : Contents) → F.told files.old ≡ Some contents
        → IsAnswered contents (asked form.entry) (Rose (F.faults files.old) (F.faults files.new)) result }
    ensures status { IfOk result (λ a. IsShownStatus a.status) }
    ensures texts { F.told files.old ≡ None
        → IsAnsweredOverTexts (asked form.entry) (Rose (F.faults files.old) (F.faults files.new)) result }
    ensures untold { F.told files.old ≡ None → IsUnreadFault result
        → Rose (F.faults files.old) (F.faults files.new) }
{
    match form {
        Form::Shown {
            saying,
            program,
            schedule,
        } => shown_files(alloc, files, saying, program, schedule),
        Form::Hunted {
            range,
            seek,
            program,
        } => hunted_file(alloc, files, range, seek, program),
        Form::Bare { alone, trace } => bare_file(alloc, files, alone, trace),
        Form::CheckedProgram { program } => checked_file(alloc, files, program),
        Form::CheckedSchedule { program, schedule } => {
            checked_files(alloc, files, program, schedule)
        }
        Form::Why { code } => explained(alloc, code),
        Form::Help { text } => help(alloc, text),
    }
}

// What is said of a code, or that it is none.
fn explained(alloc: Global, code: u16) -> Result<Written, Refusal>
    ensures answer { Tells (why_answer code (entry_of code)) result }
    ensures status { IfOk result (λ a. IsStatus a.status) }
    ensures read { ¬ IsUnreadFault result }
{
    match entry(code) {
        Some(found) => said(alloc, &found),
        None => unsaid(alloc, code),
    }
}

// What is said of an entry.
fn said(alloc: Global, found: &Why) -> Result<Written, Refusal>
    ensures answer { Tells (said_answer (entry_in found.now)) result }
    ensures status { IfOk result (λ a. IsStatus a.status) }
    ensures read { ¬ IsUnreadFault result }
{
    let text = mr_why::text(alloc, found)?;
    Ok(Written { text, status: 0 })
}

// That a number is no code, with its status.
fn unsaid(alloc: Global, code: u16) -> Result<Written, Refusal>
    ensures answer { Tells (unsaid_answer code) result }
    ensures status { IfOk result (λ a. IsStatus a.status) }
    ensures read { ¬ IsUnreadFault result }
{
    let text = no_code(alloc, code)?;
    Ok(Written { text, status: 1 })
}

// That a number is no code.
fn no_code(alloc: Global, code: u16) -> Result<Vec<u8>, AllocError>
    ensures { IfOk result (λ text. text.items ≡ (unsaid_answer code).text) }
{
    let mut text = Vec::from_slice(alloc, b"no rule, no fault and no reason has the number ")?;
    push_number(&mut text, u64::from(code))?;
    text.push(b'\n')?;
    Ok(text)
}

// Help, by its text.
fn help(alloc: Global, text: &[u8]) -> Result<Written, Refusal>
    ensures answer { Tells (help_answer text.now) result }
    ensures status { IfOk result (λ a. IsStatus a.status) }
    ensures read { ¬ IsUnreadFault result }
{
    let text = Vec::from_slice(alloc, text)?;
    Ok(Written { text, status: 0 })
}
