//! Runs in another order, which is drawn from a number.
ghost use Rattle.std.specs.Prelude.{◌≡◌, ◌≤◌, ◌^◌, [], IfOk, None, length, map};
ghost use Rattle.mr_event.specs.Predicted.{predicted};
ghost use Rattle.mr_report.specs.Json.{ArePrinted};
ghost use Rattle.mr_run.specs.Runs.{IsRun};
ghost use Rattle.mr_step.specs.StartRuns.{Legal, steps_of};
ghost use Rattle.mr_answer.specs.Answers.{behind_schedule, ordered_answer, run_report, shuffled_answer, told_by};
ghost use Rattle.mr_input.specs.Answer.{IsStatus, Tells, seen};
ghost use Rattle.mr_answer.specs.declared.formats.Format.TheVariants.{Shuffled, Text};
ghost use Rattle.mr_input.specs.Inputs.{IsUnreadFault};
ghost use Rattle.mr_answer.specs.Report.{line_of};

use crate::formats::Format;
use crate::report::{behind_schedule, report, report_kept};
use crate::run::refusal_of;
use mr_input::{Refusal, Written, answered};
use mr_run::{Clocked, Nothing, run};
use mr_sched::{Schedule, Version};
use mr_step::Machine;
use mr_typing::Checked;
use mr_witness::shuffle;
use std::alloc::{AllocError, Global};

/// The report of the run of a program under a schedule; where no race is listed, the schedule in an order that is drawn
/// from the number, and the report of the run in that order.
pub fn report_shuffled(
    alloc: Global,
    p: &Checked,
    v: Version,
    w: &Schedule,
    number: u64,
) -> Result<Written, Refusal>
    requires { length w.now.entries ≤ 2 ^ 22 }
    ensures answer { Tells (run_report (Shuffled number) p.now v w.now) result }
    ensures status { IfOk result (λ a. IsStatus a.status) }
    ensures read { ¬ IsUnreadFault result }
{
    let mut kept = Clocked::new(alloc);
    match run(alloc, p, w, &mut kept) {
        Ok(machine) => shuffled_run(alloc, p, v, w, number, &machine, &kept),
        Err(fault) => Err(refusal_of(v, w, fault)),
    }
}

// The same of a run that was taken to its end.
fn shuffled_run(
    alloc: Global,
    p: &Checked,
    v: Version,
    w: &Schedule,
    number: u64,
    machine: &Machine<'_>,
    kept: &Clocked,
) -> Result<Written, Refusal>
    requires few { length w.now.entries ≤ 2 ^ 22 }
    requires run { IsRun p.now w.now machine.now }
    requires kept { kept.now ≡ steps_of p.now w.now }
    ensures answer { Tells (shuffled_answer number p.now v w.now
        (record { config = machine.now.config; steps = kept.now }) (predicted kept.now)) result }
    ensures status { IfOk result (λ a. IsStatus a.status) }
    ensures read { ¬ IsUnreadFault result }
{
    let races = kept.races();
    if !races.is_empty() {
        return answered(report_kept(alloc, Format::Text, v, w, machine, kept));
    }
    let _program = p.program();
    let order = shuffle(alloc, kept.steps(), w, number)?;
    run_again(alloc, p, v, &order)
}

// The text of a legal schedule whose run shows no race, and the report of that run, of whose steps nothing is kept.
fn run_again(alloc: Global, p: &Checked, v: Version, order: &Schedule) -> Result<Written, Refusal>
    requires few { length order.now.entries ≤ 2 ^ 22 }
    requires legal { Legal p.now order.now }
    requires silent { predicted (steps_of p.now order.now) ≡ [] }
    ensures answer { Tells (ordered_answer p.now v order.now) result }
    ensures status { IfOk result (λ a. IsStatus a.status) }
    ensures read { ¬ IsUnreadFault result }
{
    let mut nothing = Nothing;
    match run(alloc, p, order, &mut nothing) {
        Ok(machine) => answered(with_schedule(alloc, v, order, &machine)),
        Err(fault) => Err(refusal_of(v, order, fault)),
    }
}

// The text of a schedule, and the report of the run under it, which shows no race.
fn with_schedule(
    alloc: Global,
    v: Version,
    order: &Schedule,
    machine: &Machine<'_>,
) -> Result<Written, AllocError>
    requires { ArePrinted (map line_of machine.now.config.output) }
    ensures answer { IfOk result
        (λ a. seen a ≡ behind_schedule v order.now (told_by Text v machine.now.config [] None)) }
    ensures status { IfOk result (λ a. IsStatus a.status) }
{
    let written = report(alloc, Format::Text, v, machine, &[], None)?;
    behind_schedule(alloc, v, order, written)
}
