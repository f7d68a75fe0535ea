//! The report of the run of a program under a schedule.
ghost use Rattle.std.specs.Prelude.{◌≡◌, ◌^◌, ◌≤◌, Err, IfOk, length, true};
ghost use Rattle.mr_run.specs.Runs.{HasPlace, IsPlace, are_of_first};
ghost use Rattle.mr_input.specs.Answer.{told, IsStatus, Tells};
ghost use Rattle.mr_answer.specs.Answers.{legal_run, line_at, run_report, told_in};
ghost use Rattle.mr_input.specs.Inputs.{IsUnreadFault};
ghost use Rattle.mr_answer.specs.Running.{refusal_by};
ghost use Rattle.mr_answer.specs.Spelled.{IsSpelled};

use crate::formats::Format;
use crate::reordered::report_shuffled;
use crate::report::{report, report_kept};
use crate::traced::report_footprints;
use mr_input::{Refusal, Written, answered};
use mr_run::{Clocked, Nothing, RunFault, is_of_first, run};
use mr_sched::{Schedule, Version, line_of};
use mr_typing::Checked;
use std::alloc::Global;

/// The report of the run of a program under a schedule whose text is in a version.
pub fn report_run(
    alloc: Global,
    format: Format,
    p: &Checked,
    v: Version,
    w: &Schedule,
) -> Result<Written, Refusal>
    requires { length w.now.entries ≤ 2 ^ 22 }
    ensures answer { Tells (run_report format p.now v w.now) result }
    ensures spelled { IsSpelled format p.now w.now result }
    ensures status { IfOk result (λ a. IsStatus a.status) }
    ensures read { ¬ IsUnreadFault result }
{
    match format {
        Format::Text => report_plainly(alloc, Format::Text, p, v, w),
        Format::Json => report_plainly(alloc, Format::Json, p, v, w),
        Format::Short => report_plainly(alloc, Format::Short, p, v, w),
        Format::Footprints => report_footprints(alloc, p, v, w),
        Format::Shuffled { number } => report_shuffled(alloc, p, v, w, number),
    }
}

// What the run of a program under a schedule came to.
fn report_plainly(
    alloc: Global,
    format: Format,
    p: &Checked,
    v: Version,
    w: &Schedule,
) -> Result<Written, Refusal>
    requires { length w.now.entries ≤ 2 ^ 22 }
    ensures answer { Tells (told (told_in format v w.now) (legal_run v p.now w.now)) result }
    ensures status { IfOk result (λ a. IsStatus a.status) }
    ensures read { ¬ IsUnreadFault result }
{
    if is_of_first(w.entries.as_slice()) {
        return report_alone(alloc, format, p, v, w);
    }
    let mut kept = Clocked::new(alloc);
    match run(alloc, p, w, &mut kept) {
        Ok(machine) => answered(report_kept(alloc, format, v, w, &machine, &kept)),
        Err(fault) => Err(refusal_of(v, w, fault)),
    }
}

// The same of a schedule of thread 0 alone. One thread has no race, so that nothing is kept of its steps.
fn report_alone(
    alloc: Global,
    format: Format,
    p: &Checked,
    v: Version,
    w: &Schedule,
) -> Result<Written, Refusal>
    requires few { length w.now.entries ≤ 2 ^ 22 }
    requires alone { are_of_first w.now.entries ≡ true }
    ensures answer { Tells (told (told_in format v w.now) (legal_run v p.now w.now)) result }
    ensures status { IfOk result (λ a. IsStatus a.status) }
    ensures read { ¬ IsUnreadFault result }
{
    let mut nothing = Nothing;
    match run(alloc, p, w, &mut nothing) {
        Ok(machine) => answered(report(alloc, format, v, &machine, &[], None)),
        Err(fault) => Err(refusal_of(v, w, fault)),
    }
}

/// Why there is no report of a run, with the line of the schedule's text in a version where a rule is broken.
pub fn refusal_of(v: Version, w: &Schedule, fault: RunFault) -> Refusal
    requires few { length w.now.entries ≤ 2 ^ 22 }
    requires there { HasPlace {A = Unit {0}} w.now (Err fault) }
    ensures { result ≡ refusal_by v w.now fault }
{
    match fault {
        RunFault::Broken {
            place,
            code,
            earlier,
        } => Refusal::Schedule {
            line: line_at(v, w, place),
            code,
            earlier,
        },
        RunFault::Memory => Refusal::Memory,
    }
}

// The line of a place.
fn line_at(v: Version, w: &Schedule, place: u32) -> u32
    requires few { length w.now.entries ≤ 2 ^ 22 }
    requires there { IsPlace w.now place }
    ensures { result ≡ line_at v w.now place }
{
    if place == 2 {
        2
    } else {
        line_of(v, w, (place - 3) as usize)
    }
}
