//! The rules and reasons that have codes.
ghost use Rattle.std.specs.Prelude.{◌≡◌};
ghost use Rattle.mr_why.specs.Why.{form_of, name_by, said_of, schedule_of, subject_of, text_of, trace_of};
ghost use Rattle.mr_why.specs.Reasons.{reason_of};
ghost use Rattle.mr_why.specs.Why.{undefined_of};
ghost use Rattle.mr_why.specs.Words.{words_of};

use crate::programs::said_of_program;
use crate::reasons::{reason_of, said_of_reason};
use crate::said::Said;
use crate::schedules::said_of_schedule;
use crate::texts::said_of_text;
use crate::traces::said_of_trace;
use mr_ast::Rule;
use mr_base::{Reason, TraceRule};
use mr_lex::TextRule;
use mr_sched::ScheduleRule;

/// What a code is of.
#[derive(Clone, Copy)]
pub enum Subject {
    /// A rule that a text breaks.
    Text(TextRule),
    /// A rule that a program breaks.
    Form(Rule),
    /// A rule that a schedule breaks.
    Schedule(ScheduleRule),
    /// A fault of a trace.
    Trace(TraceRule),
    /// A reason of undefined behaviour.
    Undefined(Reason),
}

// The rule of texts of a number.
fn text_of(code: u8) -> Option<Subject>
    ensures { result ≡ text_of code }
{
    match TextRule::of_code(code) {
        Some(rule) => Some(Subject::Text(rule)),
        None => None,
    }
}

// The rule of programs of a number.
fn form_of(code: u8) -> Option<Subject>
    ensures { result ≡ form_of code }
{
    match Rule::of_code(code) {
        Some(rule) => Some(Subject::Form(rule)),
        None => None,
    }
}

// The rule of schedules of a number.
fn schedule_of(code: u8) -> Option<Subject>
    ensures { result ≡ schedule_of code }
{
    match ScheduleRule::of_code(code) {
        Some(rule) => Some(Subject::Schedule(rule)),
        None => None,
    }
}

// The fault of traces of a number.
fn trace_of(code: u8) -> Option<Subject>
    ensures { result ≡ trace_of code }
{
    match TraceRule::of_code(code) {
        Some(rule) => Some(Subject::Trace(rule)),
        None => None,
    }
}

// The reason of a number, as what a code is of.
fn undefined_of(code: u16) -> Option<Subject>
    ensures { result ≡ undefined_of code }
{
    match reason_of(code) {
        Some(reason) => Some(Subject::Undefined(reason)),
        None => None,
    }
}

/// The rule or the reason of a number, where there is one.
#[tactic(auto, unfolding(crate::specs::Why::subject_of))]
pub fn subject_of(code: u16) -> Option<Subject>
    ensures { result ≡ subject_of code }
{
    if code < 20 {
        text_of(code as u8)
    } else if code < 50 {
        form_of(code as u8)
    } else if code < 70 {
        schedule_of(code as u8)
    } else if code < 100 {
        trace_of(code as u8)
    } else {
        undefined_of(code)
    }
}

/// Its name.
pub(crate) fn name_by(subject: Subject) -> &'static str
    ensures { result.now ≡ name_by subject }
{
    match subject {
        Subject::Text(rule) => rule.name(),
        Subject::Form(rule) => rule.name(),
        Subject::Schedule(rule) => rule.name(),
        Subject::Trace(rule) => rule.name(),
        Subject::Undefined(reason) => reason.name(),
    }
}

/// What is said of it.
#[tactic(auto, unfolding(crate::specs::Why::said_of))]
pub(crate) fn said_of(subject: Subject) -> Said
    ensures { words_of result ≡ said_of subject }
{
    match subject {
        Subject::Text(rule) => said_of_text(rule),
        Subject::Form(rule) => said_of_program(rule),
        Subject::Schedule(rule) => said_of_schedule(rule),
        Subject::Trace(rule) => said_of_trace(rule),
        Subject::Undefined(reason) => said_of_reason(reason),
    }
}
