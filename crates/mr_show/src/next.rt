//! How the run of a program under a schedule can go on.
ghost use Rattle.std.specs.Prelude.{◌≡◌, ◌++◌, ◌^◌, ◌≤◌, Ok, IfOk, OnOk, codes, false, length, map, option_copied};
ghost use Rattle.mr_base.specs.declared.reason.Verdict.TheVariants.{Deadlock};
ghost use Rattle.mr_places.specs.GrammarParsing.{parsed};
ghost use Rattle.mr_start.specs.Runs.{schedule_fault};
ghost use Rattle.mr_input.specs.Answer.{IsStatus, Tells, seen as written_as};
ghost use Rattle.mr_input.specs.Inputs.{IsUnreadFault};
ghost use Rattle.mr_listing.specs.Seen.{seen};
ghost use Rattle.mr_next.specs.Reached.{GoesTo};
ghost use Rattle.mr_show.specs.Next.{next_answer, position_of, positions_in, prospects_told, reached_answer};
ghost use Rattle.mr_show.specs.Next.{standing_seen, threads_told};
ghost use Rattle.mr_show.specs.Reached.{broken_told, entry_lines, status_by};

use crate::placed::places_of;
use crate::sentences::sentence_of;
use mr_answer::refusal_of;
use mr_ast::Program;
use mr_base::Verdict;
use mr_input::{Refusal, Written, answered};
use mr_labels::{Allocations, Rest};
use mr_listing::{Shown, stand_text};
use mr_next::{Broken, Position, Prospect, Reached, prospects, push_broken, push_prospects, reach};
use mr_replay::rests;
use mr_sched::{Entry, Items, Schedule, Version};
use mr_step::Machine;
use mr_wf::Checked;
use std::alloc::{AllocError, Global};

/// How the run of the program of a text can go on under a schedule whose text is in a version.
pub(crate) fn next_run(
    alloc: Global,
    text: &[u8],
    p: &Checked,
    v: Version,
    w: &Schedule,
) -> Result<Written, Refusal>
    requires few { length w.now.entries ≤ 2 ^ 22 }
    requires parsed { parsed text.now ≡ Ok p.now }
    ensures answer { Tells (next_answer text.now p.now v w.now) result }
    ensures status { IfOk result (λ a. IsStatus a.status) }
    ensures read { ¬ IsUnreadFault result }
{
    match reach(alloc, p, w) {
        Ok(reached) => answered(written(alloc, text, p, w, &reached)),
        Err(fault) => Err(refusal_of(v, w, fault)),
    }
}

// The text of how far a schedule goes, and of what each thread would do there.
fn written(
    alloc: Global,
    text: &[u8],
    p: &Checked,
    w: &Schedule,
    reached: &Reached<'_>,
) -> Result<Written, AllocError>
    requires parsed { parsed text.now ≡ Ok p.now }
    requires goes { GoesTo p.now w.now reached.now }
    ensures answer { IfOk result (λ a. written_as a
        ≡ reached_answer text.now p.now w.now (schedule_fault p.now w.now)) }
    ensures status { IfOk result (λ a. IsStatus a.status) }
{
    let mut out = Vec::new(alloc);
    push_fault(&mut out, w.entries.as_slice(), reached.broken)?;
    push_threads(alloc, &mut out, text, p, &reached.machine)?;
    Ok(Written {
        text: out,
        status: status_by(reached.broken),
    })
}

// 1 where an entry breaks a rule.
fn status_by(broken: Option<Broken>) -> u8
    ensures status { result ≡ status_by broken }
    ensures least { result ≤ 1 }
{
    match broken {
        Some(_) => 1,
        None => 0,
    }
}

// Appends an entry that breaks a rule, if it is there.
fn push_entry(out: &mut Vec<u8>, entry: Option<&Entry>, broken: &Broken) -> Result<(), AllocError>
    ensures { OnOk result (out.new.items ≡ out.old.items ++ entry_lines broken.now (option_copied entry.entry)) }
{
    match entry {
        Some(entry) => push_broken(out, sentence_of(broken.code.into()), entry, broken),
        None => Ok(()),
    }
}

// Appends the entry that breaks a rule, where one does. The first has place 3.
fn push_fault(
    out: &mut Vec<u8>,
    entries: &[Entry],
    broken: Option<Broken>,
) -> Result<(), AllocError>
    ensures { OnOk result (out.new.items ≡ out.old.items ++ broken_told entries.now broken) }
{
    match broken {
        Some(broken) => {
            let at = broken.place.saturating_sub(3) as usize;
            push_entry(out, entries.get(at), &broken)
        }
        None => Ok(()),
    }
}

// Appends what each thread of a machine would do next.
fn push_threads(
    alloc: Global,
    out: &mut Vec<u8>,
    text: &[u8],
    p: &Checked,
    machine: &Machine<'_>,
) -> Result<(), AllocError>
    requires parsed { parsed text.now ≡ Ok p.now }
    requires working { machine.now.failed ≡ false }
    ensures { OnOk result (out.new.items
        ≡ out.old.items ++ threads_told text.now p.now machine.now.look machine.now.config) }
{
    let positions = positions_of(alloc, text, p, machine)?;
    let prospects = prospects(alloc, machine)?;
    push_each(
        alloc,
        out,
        machine.verdict(),
        p.program(),
        positions.as_slice(),
        prospects.as_slice(),
    )
}

// Appends what threads would do next that have these positions, in a run with this verdict.
fn push_each(
    alloc: Global,
    out: &mut Vec<u8>,
    verdict: Verdict,
    p: &Program,
    positions: &[Position],
    prospects: &[Prospect],
) -> Result<(), AllocError>
    ensures { OnOk result (out.new.items
        ≡ out.old.items ++ prospects_told verdict p.now positions.now prospects.now) }
{
    match verdict {
        Verdict::Running => push_prospects(alloc, out, p, positions, prospects),
        Verdict::Deadlock => push_stuck(alloc, out, p, positions, prospects),
        Verdict::Exit => push_end(out),
        Verdict::Leak => push_end(out),
        Verdict::Abort => push_end(out),
        Verdict::Undefined(_) => push_end(out),
    }
}

// Appends what threads wait for that have these positions, none of which can go on.
fn push_stuck(
    alloc: Global,
    out: &mut Vec<u8>,
    p: &Program,
    positions: &[Position],
    prospects: &[Prospect],
) -> Result<(), AllocError>
    ensures { OnOk result (out.new.items
        ≡ out.old.items ++ prospects_told Deadlock p.now positions.now prospects.now) }
{
    out.extend_from_slice(b"no thread can go on\n")?;
    push_prospects(alloc, out, p, positions, prospects)
}

// Appends that the run has ended.
fn push_end(out: &mut Vec<u8>) -> Result<(), AllocError>
    ensures { OnOk result (out.new.items ≡ out.old.items ++ codes "the run has ended\n") }
{
    out.extend_from_slice(b"the run has ended\n")
}

// Where each thread of a machine stands.
fn positions_of(
    alloc: Global,
    text: &[u8],
    p: &Checked,
    machine: &Machine<'_>,
) -> Result<Vec<Position>, AllocError>
    requires { parsed text.now ≡ Ok p.now }
    ensures { IfOk result (λ positions. positions.items
        ≡ positions_in (standing_seen text.now p.now machine.now.config)) }
{
    let places = places_of(alloc, text, p)?;
    let rows = Allocations::new(alloc, Vec::new(alloc))?;
    let rests = rests(alloc, machine)?;
    let shown = Shown {
        text,
        program: p.program(),
        places: &places,
        rows: &rows,
        steps: &[],
        stands: &[],
        count: 0,
        feet: &[],
        lines: &[],
        races: &[],
        verdict: machine.verdict(),
        rests: rests.as_slice(),
    };
    each_position(alloc, &shown, shown.rests)
}

// Where a thread stands.
fn position_of(alloc: Global, shown: &Shown<'_>, rest: Rest) -> Result<Position, AllocError>
    ensures { IfOk result (λ position. position ≡ position_of (seen shown.now) rest) }
{
    let text = stand_text(alloc, shown, rest.stand)?;
    Ok(Position {
        stand: rest.stand,
        text: Items::from_vec(text),
    })
}

// Where threads stand that stand so.
fn each_position(
    alloc: Global,
    shown: &Shown<'_>,
    rests: &[Rest],
) -> Result<Vec<Position>, AllocError>
    ensures { IfOk result (λ positions. positions.items ≡ map (position_of (seen shown.now)) rests.now) }
{
    let mut positions = Vec::new(alloc);
    for rest in rests {
        let position = position_of(alloc, shown, *rest)?;
        positions.push(position)?;
    }
    Ok(positions)
}
