//! The schedule that shows the race which is listed for a step of a run.
ghost use Rattle.std.specs.Prelude.{◌≡◌, ◌∷◌, ℕ, ◌^◌, ◌<◌, ◌≤◌, Contains, IfOk, List, None, OnOk, Some, length};
ghost use Rattle.mr_ast.specs.declared.program.Program.{Program};
ghost use Rattle.mr_event.specs.Footprint.{Footprint as FootprintOf};
ghost use Rattle.mr_event.specs.Order.{HasNoPartner, IsGreatestPartner};
ghost use Rattle.mr_event.specs.Predicted.{predicted};
ghost use Rattle.mr_event.specs.declared.footprint.Pair.{Pair as PairOf};
ghost use Rattle.mr_input.specs.Answer.{IsStatus, Tells, seen as written_as};
ghost use Rattle.mr_input.specs.Inputs.{IsUnreadFault};
ghost use Rattle.mr_run.specs.Runs.{HasPlace, RunAnswer};
ghost use Rattle.mr_run.specs.Witnesses.{race_of, witness_by};
ghost use Rattle.mr_run.specs.declared.witnesses.Selection.{Selection as SelectionOf};
ghost use Rattle.mr_sched.specs.Versions.{text_in};
ghost use Rattle.mr_sched.specs.declared.version.Read.{Read as ReadOf};
ghost use Rattle.mr_start.specs.Runs.{Legal, steps_of};
ghost use Rattle.mr_show.specs.Witness.{IsToldOf, found_text, hindered_text, is_race, reports_race, shown_text};
ghost use Rattle.mr_show.specs.Witness.{told_of, unlisted_text, witness_text, witness_under};
ghost use Rattle.mr_typing.specs.Walk.{WellFormed};

use mr_answer::{refusal_of, status_of};
use mr_base::{Reason, Verdict, codes_differ};
use mr_event::{Footprint, Pair};
use mr_input::{Refusal, Written, answered, push_number};
use mr_run::{Clocked, Nothing, RunFault, Selection, race_of, run, witness_by};
use mr_sched::{Read, Schedule, Version, print_version};
use mr_step::Machine;
use mr_wf::Checked;
use std::alloc::{AllocError, Global};

/// The schedule for the race that is listed for a step, counted from 0, of the run of a program under a schedule that
/// was read; or why there is none.
pub(crate) fn witness_run(
    alloc: Global,
    step: u32,
    selection: Selection,
    p: &Checked,
    read: &Read,
) -> Result<Written, Refusal>
    requires few { length read.now.schedule.entries ≤ 2 ^ 22 }
    ensures answer { Tells (witness_under step selection p.now read.now) result }
    ensures status { IfOk result (λ a. IsStatus a.status) }
    ensures read { ¬ IsUnreadFault result }
{
    let mut kept = Clocked::new(alloc);
    let outcome = run(alloc, p, &read.schedule, &mut kept);
    ended(alloc, step, selection, p, read, outcome, &kept)
}

// The same of a run that came to this, whose footprints were kept.
fn ended(
    alloc: Global,
    step: u32,
    selection: Selection,
    p: &Checked,
    read: &Read,
    outcome: Result<Machine<'_>, RunFault>,
    kept: &Clocked,
) -> Result<Written, Refusal>
    requires few { length read.now.schedule.entries ≤ 2 ^ 22 }
    requires run { RunAnswer p.now read.now.schedule outcome }
    requires place { HasPlace read.now.schedule outcome }
    requires kept { OnOk outcome (kept.now ≡ steps_of p.now read.now.schedule) }
    ensures answer { Tells (witness_under step selection p.now read.now) result }
    ensures status { IfOk result (λ a. IsStatus a.status) }
    ensures read { ¬ IsUnreadFault result }
{
    match outcome {
        Ok(machine) => {
            answered(written(alloc, step, selection, p, read, machine.verdict(), kept))
        }
        Err(fault) => Err(refusal_of(read.version, &read.schedule, fault)),
    }
}

// What is written of a run that ended so.
fn written(
    alloc: Global,
    step: u32,
    selection: Selection,
    p: &Checked,
    read: &Read,
    verdict: Verdict,
    kept: &Clocked,
) -> Result<Written, AllocError>
    requires many { length kept.now ≤ length read.now.schedule.entries }
    requires few { length read.now.schedule.entries ≤ 2 ^ 22 }
    ensures answer { IfOk result (λ a. written_as a ≡ told_of step selection p.now read.now verdict kept.now) }
    ensures status { IfOk result (λ a. IsStatus a.status) }
{
    let text = text_of(alloc, step, selection, p, read, kept)?;
    Ok(Written {
        text,
        status: status_of(verdict, kept.races()),
    })
}

// The text of the witness of a step.
fn text_of(
    alloc: Global,
    step: u32,
    selection: Selection,
    p: &Checked,
    read: &Read,
    kept: &Clocked,
) -> Result<Vec<u8>, AllocError>
    requires many { length kept.now ≤ length read.now.schedule.entries }
    requires few { length read.now.schedule.entries ≤ 2 ^ 22 }
    ensures { IfOk result (λ text. text.items
        ≡ witness_text step selection p.now read.now kept.now (race_of step (predicted kept.now))) }
{
    match race_of(kept.races(), step as usize) {
        Some(pair) => race_text(alloc, selection, p, read, kept.steps(), pair),
        None => unlisted(alloc, step),
    }
}

// The text of the witness of a race that is listed.
fn race_text(
    alloc: Global,
    selection: Selection,
    p: &Checked,
    read: &Read,
    steps: &[Footprint],
    pair: Pair,
) -> Result<Vec<u8>, AllocError>
    requires many { length steps.now ≤ length read.now.schedule.entries }
    requires few { length read.now.schedule.entries ≤ 2 ^ 22 }
    requires listed { Contains (predicted steps.now) pair }
    ensures { IfOk result (λ text. text.items ≡ shown_text p.now read.now.version pair
        (witness_by selection steps.now read.now.schedule pair.first pair.second)) }
{
    let found = witness_by(alloc, selection, steps, &read.schedule, pair)?;
    let reported = reports_race(alloc, p, &found)?;
    found_text(alloc, read.version, pair, &found, reported)
}

// The text of the schedule of a race, if a data race is reported behind it.
fn found_text(
    alloc: Global,
    v: Version,
    pair: Pair,
    found: &Schedule,
    reported: bool,
) -> Result<Vec<u8>, AllocError>
    requires first { pair.first < 2 ^ 32 }
    requires second { pair.second < 2 ^ 32 }
    ensures { IfOk result (λ text. text.items ≡ found_text v pair found.now reported) }
{
    if reported {
        schedule_text(alloc, v, found)
    } else {
        hindered(alloc, pair)
    }
}

// Whether the machine reports a data race behind the last entry of a schedule, which breaks no rule.
fn reports_race(alloc: Global, p: &Checked, w: &Schedule) -> Result<bool, AllocError>
    requires { length w.now.entries ≤ 2 ^ 22 }
    ensures { IfOk result (λ reported. reported ≡ reports_race p.now w.now) }
{
    match run(alloc, p, w, &mut Nothing) {
        Ok(machine) => Ok(is_race(machine.verdict())),
        Err(RunFault::Broken { .. }) => Ok(false),
        Err(RunFault::Memory) => Err(AllocError),
    }
}

// Whether a run ended in a data race.
fn is_race(verdict: Verdict) -> bool
    ensures { result ≡ is_race verdict }
{
    match verdict {
        Verdict::Undefined(reason) => reason.code() == Reason::DataRace.code(),
        Verdict::Running | Verdict::Exit | Verdict::Leak | Verdict::Abort | Verdict::Deadlock => {
            false
        }
    }
}

// The text of a schedule in a version.
fn schedule_text(alloc: Global, v: Version, w: &Schedule) -> Result<Vec<u8>, AllocError>
    ensures { IfOk result (λ text. text.items ≡ text_in v w.now) }
{
    let mut text = Vec::new(alloc);
    print_version(alloc, v, w, &mut text)?;
    Ok(text)
}

// That no race is listed for a step.
fn unlisted(alloc: Global, step: u32) -> Result<Vec<u8>, AllocError>
    ensures { IfOk result (λ text. text.items ≡ unlisted_text step) }
{
    let mut text = Vec::from_slice(alloc, b"step ")?;
    push_number(&mut text, u64::from(step) + 1)?;
    text.extend_from_slice(b" races with no earlier step\n")?;
    Ok(text)
}

// That the schedule of a race doesn't come to it.
fn hindered(alloc: Global, pair: Pair) -> Result<Vec<u8>, AllocError>
    requires first { pair.first < 2 ^ 32 }
    requires second { pair.second < 2 ^ 32 }
    ensures { IfOk result (λ text. text.items ≡ hindered_text pair) }
{
    let mut text = Vec::from_slice(alloc, b"step ")?;
    push_number(&mut text, pair.second as u64 + 1)?;
    text.extend_from_slice(b" races with step ")?;
    push_number(&mut text, pair.first as u64 + 1)?;
    text.extend_from_slice(b", but an earlier race is in its way\n")?;
    Ok(text)
}

/// A law: the race that is listed for a step is that with its greatest partner. Of it the schedule is told, the kept
/// one or the short one, if this breaks no rule and its run ends in a data race; and that an earlier race is in its
/// way, if not.
pub fn listed_races_are_told()
    ensures partner { (step : ℕ) (steps : List FootprintOf) (pair : PairOf)
        → race_of step (predicted steps) ≡ Some pair
        → (pair.second ≡ step) × IsGreatestPartner steps pair.first step }
    ensures told { (step : ℕ) (selection : SelectionOf) (p : Program) (r : ReadOf) → Legal p r.schedule
        → (pair : PairOf) → race_of step (predicted (steps_of p r.schedule)) ≡ Some pair
        → IsToldOf p r.version pair
        (witness_by selection (steps_of p r.schedule) r.schedule pair.first pair.second)
        (witness_under step selection p r).text }
{
    codes_differ();
}

/// A law: a step for which no race is listed races with no earlier step, and this is what is told.
pub fn other_steps_race_with_none()
    ensures partner { (step : ℕ) (steps : List FootprintOf) → race_of step (predicted steps) ≡ None
        → HasNoPartner steps step }
    ensures told { (step : ℕ) (selection : SelectionOf) (p : Program) (r : ReadOf) → Legal p r.schedule
        → race_of step (predicted (steps_of p r.schedule)) ≡ None
        → (witness_under step selection p r).text ≡ unlisted_text step }
{}

/// A law: for the step of the first race of a run its schedule is told, the kept one or the short one.
pub fn first_race_is_shown()
    ensures { (selection : SelectionOf) (p : Program) (r : ReadOf) → WellFormed p → Legal p r.schedule
        → (pair : PairOf) (races : List PairOf) → predicted (steps_of p r.schedule) ≡ pair ∷ races
        → witness_under pair.second selection p r ≡ record {
          text = text_in r.version
              (witness_by selection (steps_of p r.schedule) r.schedule pair.first pair.second);
          status = 1;
        } }
{}
