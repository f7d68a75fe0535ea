//! The rules of schedules, each with its code and its name.
ghost use Rattle.std.specs.Prelude.{◌≡◌, IfSome, Some};
ghost use Rattle.mr_sched.specs.Rules.{code_of, name_of, rule_of};
ghost use Rattle.mr_sched.specs.declared.rule.ScheduleRule.{ScheduleRule as Rule};

use crate::fault::{BAD_HEADER, BAD_LINE, TOO_LONG};

/// Which rule a schedule breaks: one of its text, or one of a step that it records.
#[derive(Clone, Copy, Debug, PartialEq, Eq)]
pub enum ScheduleRule {
    /// The first line isn't the header, or no LF ends it.
    BadHeader,
    /// A line has another form than is due, or no LF ends it.
    BadLine,
    /// The text has too many bytes, or too many entries.
    TooLong,
    /// The thread of an entry isn't enabled.
    NotEnabled,
    /// A step asks for a pick that its entry doesn't have.
    MissingPick,
    /// An entry has a pick that its step doesn't ask for.
    ExtraPick,
    /// A picked address isn't one that the allocation may have.
    BadAddress,
    /// A picked range overlaps that of an earlier allocation.
    Reused,
    /// A picked thread doesn't wait for the lock.
    NotWaiting,
    /// An entry stands behind the step that stopped the run.
    AfterStop,
    /// A step creates a thread too many.
    TooManyThreads,
    /// A step creates a lock too many.
    TooManyLocks,
}

impl ScheduleRule {
    /// The number of the rule: from 50 on one of the text, and from 60 on one of a step.
    pub fn code(self) -> u8
        ensures { result ≡ code_of self }
    {
        match self {
            ScheduleRule::BadHeader => BAD_HEADER,
            ScheduleRule::BadLine => BAD_LINE,
            ScheduleRule::TooLong => TOO_LONG,
            ScheduleRule::NotEnabled => 60,
            ScheduleRule::MissingPick => 61,
            ScheduleRule::ExtraPick => 62,
            ScheduleRule::BadAddress => 63,
            ScheduleRule::Reused => 64,
            ScheduleRule::NotWaiting => 65,
            ScheduleRule::AfterStop => 66,
            ScheduleRule::TooManyThreads => 67,
            ScheduleRule::TooManyLocks => 68,
        }
    }

    /// The name of the rule, as it is printed behind its number.
    pub fn name(self) -> &'static str
        ensures { result.now ≡ name_of self }
    {
        match self {
            ScheduleRule::BadHeader => "BadHeader",
            ScheduleRule::BadLine => "BadLine",
            ScheduleRule::TooLong => "TooLong",
            ScheduleRule::NotEnabled => "NotEnabled",
            ScheduleRule::MissingPick => "MissingPick",
            ScheduleRule::ExtraPick => "ExtraPick",
            ScheduleRule::BadAddress => "BadAddress",
            ScheduleRule::Reused => "Reused",
            ScheduleRule::NotWaiting => "NotWaiting",
            ScheduleRule::AfterStop => "AfterStop",
            ScheduleRule::TooManyThreads => "TooManyThreads",
            ScheduleRule::TooManyLocks => "TooManyLocks",
        }
    }

    /// The rule of a number.
    pub fn of_code(code: u8) -> Option<ScheduleRule>
        ensures some { IfSome result (λ rule. code_of rule ≡ code) }
        ensures only { (rule : Rule) → code_of rule ≡ code → result ≡ Some rule }
        ensures is { result ≡ rule_of code }
    {
        match code {
            BAD_HEADER => Some(ScheduleRule::BadHeader),
            BAD_LINE => Some(ScheduleRule::BadLine),
            TOO_LONG => Some(ScheduleRule::TooLong),
            60 => Some(ScheduleRule::NotEnabled),
            61 => Some(ScheduleRule::MissingPick),
            62 => Some(ScheduleRule::ExtraPick),
            63 => Some(ScheduleRule::BadAddress),
            64 => Some(ScheduleRule::Reused),
            65 => Some(ScheduleRule::NotWaiting),
            66 => Some(ScheduleRule::AfterStop),
            67 => Some(ScheduleRule::TooManyThreads),
            68 => Some(ScheduleRule::TooManyLocks),
            _ => None,
        }
    }
}

/// A law, and no code: rules with one code are one rule.
pub fn codes_differ()
    ensures { (r s : Rule) → code_of r ≡ code_of s → r ≡ s }
{}
