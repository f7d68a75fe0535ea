//! The entry of a turn.
ghost use Rattle.std.specs.Prelude.{◌≡◌, false, IfOk, Some};
ghost use Rattle.mr_step.specs.PlanMachine.{State};
ghost use Rattle.mr_step.specs.PlanQueries.{tables_of};
ghost use Rattle.mr_step.specs.PlanRuns.{is_running};
ghost use Rattle.mr_start.specs.SyncTables.{IsEnabled};
ghost use Rattle.mr_start.specs.Steps.{Own};
ghost use Rattle.mr_auto.specs.Answers.{HasState};
ghost use Rattle.mr_fill.specs.Filling.{asked_entry, enabled_entry, entry_at, entry_in};
ghost use Rattle.mr_fill.specs.Turning.{TurnAnswer};

use crate::Turn;
use crate::due::Due;
use crate::picking::{is_surplus, missing_code, picks_for};
use mr_base::Verdict;
use mr_sched::{Ask, Chooser, Entry, ScheduleRule};
use mr_step::Machine;
use std::alloc::{AllocError, Global};

// What a turn comes to whose step asks for this.
fn asked(
    alloc: Global,
    machine: &Machine<'_>,
    chooser: &mut Chooser,
    turn: Turn,
    asks: &[Ask],
) -> Result<Due, AllocError>
    requires { (s : State Own) × (machine.now.config.state ≡ Some s) }
    ensures { IfOk result (λ due. (s : State Own) → machine.now.config.state ≡ Some s
        → TurnAnswer (asked_entry s.shared.statuses chooser.old turn asks.now) due chooser.new) }
{
    if is_surplus(turn.receiver, asks) {
        return Ok(Due::Broken(ScheduleRule::ExtraPick.code()));
    }
    match picks_for(alloc, machine, chooser, turn.receiver, asks)? {
        Some(picks) => Ok(Due::Takes(Entry {
            thread: turn.thread,
            picks,
        })),
        None => Ok(Due::Broken(missing_code(asks))),
    }
}

// What a turn comes to whose thread can go on.
fn enabled_due(
    alloc: Global,
    machine: &Machine<'_>,
    chooser: &mut Chooser,
    turn: Turn,
) -> Result<Due, AllocError>
    requires working { machine.now.failed ≡ false }
    requires enabled { (s : State Own) × (machine.now.config.state ≡ Some s)
        × IsEnabled turn.thread (tables_of s.shared) }
    ensures { IfOk result (λ due. (s : State Own) → machine.now.config.state ≡ Some s
        → TurnAnswer (enabled_entry machine.now.look s chooser.old turn) due chooser.new) }
{
    let mut asks = Vec::new(alloc);
    match machine.asks(turn.thread, &mut asks)? {
        Some(code) => Ok(Due::Broken(code)),
        None => asked(alloc, machine, chooser, turn, asks.as_slice()),
    }
}

// What a turn comes to in a machine that runs.
fn running_due(
    alloc: Global,
    machine: &Machine<'_>,
    chooser: &mut Chooser,
    turn: Turn,
) -> Result<Due, AllocError>
    requires working { machine.now.failed ≡ false }
    requires state { (s : State Own) × (machine.now.config.state ≡ Some s) }
    ensures { IfOk result (λ due. (s : State Own) → machine.now.config.state ≡ Some s
        → TurnAnswer (entry_in machine.now.look s chooser.old turn) due chooser.new) }
{
    if machine.enabled(turn.thread) {
        enabled_due(alloc, machine, chooser, turn)
    } else {
        Ok(Due::Broken(ScheduleRule::NotEnabled.code()))
    }
}

// Whether a machine runs.
fn is_running(machine: &Machine<'_>) -> bool
    ensures { result ≡ is_running machine.now.config.verdict }
{
    match machine.verdict() {
        Verdict::Running => true,
        Verdict::Exit
        | Verdict::Leak
        | Verdict::Abort
        | Verdict::Deadlock
        | Verdict::Undefined(_) => false,
    }
}

/// What a turn comes to: the entry that its thread takes, or the rule that it would break.
pub(crate) fn turn_due(
    alloc: Global,
    machine: &Machine<'_>,
    chooser: &mut Chooser,
    turn: Turn,
) -> Result<Due, AllocError>
    requires working { machine.now.failed ≡ false }
    requires state { HasState machine.now.config }
    ensures { IfOk result (λ due. TurnAnswer
        (entry_at machine.now.look machine.now.config chooser.old turn) due chooser.new) }
{
    if is_running(machine) {
        running_due(alloc, machine, chooser, turn)
    } else {
        Ok(Due::Broken(ScheduleRule::AfterStop.code()))
    }
}
