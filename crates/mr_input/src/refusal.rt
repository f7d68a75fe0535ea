//! Why there is no report and no canonical text: the lines that tell it, and their exit statuses.
ghost use Rattle.std.specs.Prelude.{◌≡◌, ◌++◌, IfOk, OnOk, decimal};
ghost use Rattle.mr_lex.specs.Rules.{name_by_code as text_name_of};
ghost use Rattle.mr_sched.specs.Rules.{name_by_code as schedule_name_of};
ghost use Rattle.mr_input.specs.Refusals.{earlier_text, refusal_text, text_line, trace_name};

use itoa::Buffer;
use mr_base::{AllocId, TraceRule};
use mr_lex::TextRule;
use mr_sched::ScheduleRule;
use std::alloc::{AllocError, AllocFailed, Global};

/// Why there is no report, and no canonical text.
#[derive(Clone, Copy, Debug, PartialEq, Eq)]
pub enum Refusal {
    /// The file of the program was not read.
    ReadProgram,
    /// The program's text is wrong at this line and column.
    Text {
        line: u32,
        col: u32,
        code: u8,
    },
    /// The file of the schedule was not read.
    ReadSchedule,
    /// The schedule's text or a rule is broken at this line, with the allocation whose range is overlapped, for 64.
    Schedule {
        line: u32,
        code: u8,
        earlier: Option<AllocId>,
    },
    /// The file of the trace was not read.
    ReadTrace,
    /// The bytes of a trace have their first fault at this offset from 0.
    Trace {
        at: u64,
        code: u8,
    },
    /// Memory ran out.
    Memory,
}

impl From<AllocError> for Refusal {
    ghost use Rattle.std.specs.Prelude.{◌≡◌};
    ghost use Rattle.mr_input.specs.declared.refusal.Refusal.TheVariants.{Memory};

    ghost from_gives = { λ _ e. e ≡ Memory };

    fn from(_: AllocError) -> Self {
        Refusal::Memory
    }
}

impl<T: Drop> From<AllocFailed<T>> for Refusal {
    ghost use Rattle.std.specs.Prelude.{◌≡◌};
    ghost use Rattle.mr_input.specs.declared.refusal.Refusal.TheVariants.{Memory};

    ghost from_gives = { λ _ e. e ≡ Memory };

    fn from(_: AllocFailed<T>) -> Self {
        Refusal::Memory
    }
}

impl Refusal {
    ghost use Rattle.std.specs.Prelude.{◌≡◌, IfOk};
    ghost use Rattle.mr_input.specs.Refusals.{refusal_text, refusal_status};

    /// The exit status.
    pub fn status(self) -> u8
        ensures { result ≡ refusal_status self }
    {
        match self {
            Refusal::ReadProgram | Refusal::ReadSchedule | Refusal::ReadTrace => 6,
            Refusal::Text { .. } => 3,
            Refusal::Schedule { .. } => 5,
            Refusal::Trace { .. } => 9,
            Refusal::Memory => 8,
        }
    }

    /// The line that is written, ended by LF.
    pub fn text(self, alloc: Global) -> Result<Vec<u8>, AllocError>
        ensures { IfOk result (λ text. text.items ≡ refusal_text self) }
    {
        match self {
            Refusal::ReadProgram => Vec::from_slice(alloc, b"read program\n"),
            Refusal::Text { line, col, code } => text_line(
                alloc,
                line,
                col,
                code,
                text_rule_name(code),
            ),
            Refusal::ReadSchedule => Vec::from_slice(alloc, b"read schedule\n"),
            Refusal::Schedule {
                line,
                code,
                earlier,
            } => schedule_line(alloc, line, code, earlier),
            Refusal::ReadTrace => Vec::from_slice(alloc, b"read trace\n"),
            Refusal::Trace { at, code } => trace_line(alloc, at, code),
            Refusal::Memory => Ok(Vec::new(alloc)),
        }
    }
}

fn text_line(
    alloc: Global,
    line: u32,
    col: u32,
    code: u8,
    name: &str,
) -> Result<Vec<u8>, AllocError>
    ensures { IfOk result (λ text. text.items ≡ text_line line col code name.now) }
{
    let mut text = Vec::from_slice(alloc, b"text ")?;
    push_number(&mut text, line.into())?;
    text.push(b' ')?;
    push_number(&mut text, col.into())?;
    text.push(b' ')?;
    push_number(&mut text, code.into())?;
    text.push(b' ')?;
    text.extend_from_slice(name.as_bytes())?;
    text.push(b'\n')?;
    Ok(text)
}

// The name of the rule that a text breaks, by its code.
fn text_rule_name(code: u8) -> &'static str
    ensures { result.now ≡ text_name_of code }
{
    match TextRule::of_code(code) {
        Some(rule) => rule.name(),
        None => "",
    }
}

fn schedule_line(
    alloc: Global,
    line: u32,
    code: u8,
    earlier: Option<AllocId>,
) -> Result<Vec<u8>, AllocError>
    ensures { IfOk result (λ text. text.items ≡ refusal_text (Refusal.Schedule line code earlier)) }
{
    let mut text = Vec::from_slice(alloc, b"schedule ")?;
    push_number(&mut text, line.into())?;
    text.push(b' ')?;
    push_number(&mut text, code.into())?;
    text.push(b' ')?;
    text.extend_from_slice(schedule_rule_name(code).as_bytes())?;
    push_earlier(&mut text, earlier)?;
    text.push(b'\n')?;
    Ok(text)
}

/// Appends a number in decimal.
pub fn push_number(text: &mut Vec<u8>, number: u64) -> Result<(), AllocError>
    ensures { OnOk result (text.new.items ≡ text.old.items ++ decimal number) }
{
    let mut buffer = Buffer::new();
    text.extend_from_slice(buffer.format(number).as_bytes())
}

fn push_earlier(text: &mut Vec<u8>, earlier: Option<AllocId>) -> Result<(), AllocError>
    ensures { OnOk result (text.new.items ≡ text.old.items ++ earlier_text earlier) }
{
    if let Some(id) = earlier {
        text.push(b' ')?;
        push_number(text, id.thread.into())?;
        text.push(b' ')?;
        push_number(text, id.count)?;
    }
    Ok(())
}

// The name of the rule that a schedule breaks, by its code.
fn schedule_rule_name(code: u8) -> &'static str
    ensures { result.now ≡ schedule_name_of code }
{
    match ScheduleRule::of_code(code) {
        Some(rule) => rule.name(),
        None => "",
    }
}

fn trace_line(alloc: Global, at: u64, code: u8) -> Result<Vec<u8>, AllocError>
    ensures { IfOk result (λ text. text.items ≡ refusal_text (Refusal.Trace at code)) }
{
    let mut text = Vec::from_slice(alloc, b"trace ")?;
    push_number(&mut text, at)?;
    text.push(b' ')?;
    push_number(&mut text, code.into())?;
    text.push(b' ')?;
    text.extend_from_slice(trace_rule_name(code).as_bytes())?;
    text.push(b'\n')?;
    Ok(text)
}

// The name of the fault that bytes have, by its code.
fn trace_rule_name(code: u8) -> &'static str
    ensures { result.now ≡ trace_name code }
{
    match TraceRule::of_code(code) {
        Some(rule) => rule.name(),
        None => "",
    }
}
