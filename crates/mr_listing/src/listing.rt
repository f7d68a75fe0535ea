//! The steps of a run.
ghost use Rattle.std.specs.Prelude.{◌≡◌, ◌++◌, IfOk, OnOk, flat_map, option_copied, slice_get};
ghost use Rattle.mr_listing.specs.Seen.{seen};
ghost use Rattle.mr_listing.specs.Partners.{ArePartners};
ghost use Rattle.mr_listing.specs.Steps.{foot_text, head_line, print_line, printed_by, step_text, steps_text, stop_text};

use crate::OutOfMemory;
use crate::accesses::push_accesses;
use crate::events::{push_end, push_event, push_woken};
use crate::held::StepValues;
use crate::leaks::push_leaks;
use crate::partners::{Partner, partners_of, push_partners};
use crate::rests::push_rests;
use crate::shown::Shown;
use crate::spots::push_stand;
use mr_event::Footprint;
use mr_labels::{ToldStep, push_count, push_number};
use mr_report::{Line, brief};
use std::alloc::Global;

// Appends the line of a step: its number, its thread, and where that stood.
fn push_head(out: &mut Vec<u8>, shown: &Shown<'_>, told: &ToldStep) -> Result<(), OutOfMemory>
    ensures { OnOk result (out.new.items ≡ out.old.items ++ head_line (seen shown.now) told.now) }
{
    push_count(out, told.number)?;
    out.extend_from_slice(b"  thread ")?;
    push_number(out, told.thread.into())?;
    out.extend_from_slice(b"  ")?;
    push_stand(out, shown, told.before)?;
    out.push(b'\n')?;
    Ok(())
}

// The prints of a step.
fn printed_by<'a>(lines: &'a [Line], told: &ToldStep) -> &'a [Line]
    ensures { result.now ≡ printed_by lines.now told.now }
{
    if told.prints_behind < told.prints_before {
        return &[];
    }
    if lines.len() < told.prints_behind {
        return &[];
    }
    &lines[told.prints_before..told.prints_behind]
}

// Appends a print.
fn push_print(out: &mut Vec<u8>, line: &Line) -> Result<(), OutOfMemory>
    ensures { OnOk result (out.new.items ≡ out.old.items ++ print_line line.now) }
{
    out.extend_from_slice(b"        prints > ")?;
    out.extend_from_slice(line.text.as_slice())?;
    out.push(b'\n')?;
    Ok(())
}

fn push_prints(out: &mut Vec<u8>, lines: &[Line]) -> Result<(), OutOfMemory>
    ensures { OnOk result (out.new.items ≡ out.old.items ++ flat_map print_line lines.now) }
{
    for line in lines {
        push_print(out, line)?;
    }
    Ok(())
}

// The footprint of the step of this number, if it completed.
fn foot_at(feet: &[Footprint], number: usize) -> Option<&Footprint>
    ensures { option_copied result ≡ slice_get feet.now number }
{
    feet.get(number)
}

// The values of the step of this number, if they are told.
fn values_at(values: &[StepValues], number: usize) -> Option<&StepValues>
    ensures { option_copied result ≡ slice_get values.now number }
{
    values.get(number)
}

// Appends what a step with these values did, by its footprint; nothing where it did not complete.
fn push_foot(
    out: &mut Vec<u8>,
    shown: &Shown<'_>,
    values: Option<&StepValues>,
    told: &ToldStep,
    foot: Option<&Footprint>,
) -> Result<(), OutOfMemory>
    ensures { OnOk result (out.new.items ≡ out.old.items
        ++ foot_text (seen shown.now) (option_copied values.entry) told.now (option_copied foot.entry)) }
{
    match foot {
        None => Ok(()),
        Some(foot) => {
            push_event(out, shown, told, foot.event(), foot.woken())?;
            push_end(out, foot.ended())?;
            push_woken(out, foot.woken())?;
            push_accesses(out, shown, told.before, values, foot.accesses())
        }
    }
}

// Appends the lines of a step.
fn push_step(
    out: &mut Vec<u8>,
    shown: &Shown<'_>,
    partners: &[Partner],
    values: &[StepValues],
    told: &ToldStep,
) -> Result<(), OutOfMemory>
    requires { ArePartners (seen shown.now).races partners.now }
    ensures { OnOk result (out.new.items ≡ out.old.items ++ step_text (seen shown.now) values.now told.now) }
{
    push_head(out, shown, told)?;
    push_prints(out, printed_by(shown.lines, told))?;
    let held = values_at(values, told.number);
    push_foot(out, shown, held, told, foot_at(shown.feet, told.number))?;
    push_partners(out, shown.races, partners, told.number)
}

// Appends the lines of each of these steps.
fn push_steps(
    out: &mut Vec<u8>,
    shown: &Shown<'_>,
    partners: &[Partner],
    values: &[StepValues],
    steps: &[ToldStep],
) -> Result<(), OutOfMemory>
    requires { ArePartners (seen shown.now).races partners.now }
    ensures { OnOk result (out.new.items
        ≡ out.old.items ++ flat_map (step_text (seen shown.now) values.now) steps.now) }
{
    for told in steps {
        push_step(out, shown, partners, values, told)?;
    }
    Ok(())
}

// Appends which step ended the run without completing, if one did.
fn push_stop(out: &mut Vec<u8>, steps: usize, completed: usize) -> Result<(), OutOfMemory>
    ensures { OnOk result (out.new.items ≡ out.old.items ++ stop_text steps completed) }
{
    if completed >= steps {
        return Ok(());
    }
    out.extend_from_slice(b"step ")?;
    push_number(out, steps as u64)?;
    out.extend_from_slice(b" ended the run\n")
}

/// The text of the steps that are told, with what they loaded and stored, which stands at the number of each; behind
/// them the verdict, how many races there are, how the threads stand where no step stopped the run, and which blocks
/// a leak has left. An `Err` is for want of memory.
pub fn steps(
    alloc: Global,
    shown: &Shown<'_>,
    values: &[StepValues],
) -> Result<Vec<u8>, OutOfMemory>
    ensures { IfOk result (λ text. text.items ≡ steps_text (seen shown.now) values.now) }
{
    let partners = partners_of(alloc, shown.races)?;
    let mut out = Vec::new(alloc);
    push_steps(&mut out, shown, partners.as_slice(), values, shown.steps)?;
    push_stop(&mut out, shown.count, shown.feet.len())?;
    brief(&[], shown.verdict, shown.races, &mut out)?;
    push_rests(&mut out, shown)?;
    push_leaks(alloc, &mut out, shown)?;
    Ok(out)
}
