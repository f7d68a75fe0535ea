//! The text of a report.
ghost use Rattle.std.specs.Prelude.{◌≡◌, ◌+◌, ◌++◌, OnErr, OnOk, codes, decimal, flat_map, option_copied};
ghost use Rattle.mr_sched.specs.Spelling.{Extends};
ghost use Rattle.mr_report.specs.Report.{brief_text, count_line, line, print_line, race_line, races_text, report_text, verdict_text, witness_text};

use crate::OutOfMemory;
use crate::report::{Line, Report};
use itoa::Buffer;
use mr_base::Verdict;
use mr_event::Pair;
use mr_sched::{Schedule, Version, print_version};
use std::alloc::Global;

// Appends a number in decimal.
fn push_number(out: &mut Vec<u8>, number: u64) -> Result<(), OutOfMemory>
    ensures ok { OnOk result (out.new.items ≡ out.old.items ++ decimal number) }
    ensures err { OnErr result (Extends out.old.items out.new.items) }
{
    let mut buffer = Buffer::new();
    out.extend_from_slice(buffer.format(number).as_bytes())
}

fn push_line(out: &mut Vec<u8>, text: &[u8]) -> Result<(), OutOfMemory>
    ensures ok { OnOk result (out.new.items ≡ out.old.items ++ line (codes "> " ++ text.now)) }
    ensures err { OnErr result (Extends out.old.items out.new.items) }
{
    out.extend_from_slice(b"> ")?;
    out.extend_from_slice(text)?;
    out.push(b'\n')?;
    Ok(())
}

fn push_output(out: &mut Vec<u8>, lines: &[Line]) -> Result<(), OutOfMemory>
    ensures ok { OnOk result (out.new.items ≡ out.old.items ++ flat_map print_line lines.now) }
    ensures err { OnErr result (Extends out.old.items out.new.items) }
{
    for line in lines {
        push_line(out, line.text.as_slice())?;
    }
    Ok(())
}

fn push_verdict(out: &mut Vec<u8>, verdict: Verdict) -> Result<(), OutOfMemory>
    ensures ok { OnOk result (out.new.items ≡ out.old.items ++ line (codes "verdict " ++ verdict_text verdict)) }
    ensures err { OnErr result (Extends out.old.items out.new.items) }
{
    out.extend_from_slice(b"verdict ")?;
    push_verdict_text(out, verdict)?;
    out.push(b'\n')?;
    Ok(())
}

// What a verdict is called.
pub(crate) fn push_verdict_text(out: &mut Vec<u8>, verdict: Verdict) -> Result<(), OutOfMemory>
    ensures ok { OnOk result (out.new.items ≡ out.old.items ++ verdict_text verdict) }
    ensures err { OnErr result (Extends out.old.items out.new.items) }
{
    match verdict {
        Verdict::Running => out.extend_from_slice(b"running")?,
        Verdict::Exit => out.extend_from_slice(b"exit")?,
        Verdict::Leak => out.extend_from_slice(b"leak")?,
        Verdict::Abort => out.extend_from_slice(b"abort")?,
        Verdict::Deadlock => out.extend_from_slice(b"deadlock")?,
        Verdict::Undefined(reason) => {
            out.extend_from_slice(b"undefined ")?;
            push_number(out, reason.code().into())?;
            out.push(b' ')?;
            out.extend_from_slice(reason.name().as_bytes())?;
        }
    }
    Ok(())
}

// A race, whose steps are counted from 1. No list is so long that this passes its numbers.
fn push_race(out: &mut Vec<u8>, pair: Pair) -> Result<(), OutOfMemory>
    ensures ok { OnOk result (out.new.items ≡ out.old.items ++ race_line pair) }
    ensures err { OnErr result (Extends out.old.items out.new.items) }
{
    out.extend_from_slice(b"race ")?;
    push_place(out, pair.first)?;
    out.push(b' ')?;
    push_place(out, pair.second)?;
    out.push(b'\n')?;
    Ok(())
}

// A place of a run, counted from 1.
fn push_place(out: &mut Vec<u8>, at: usize) -> Result<(), OutOfMemory>
    ensures ok { OnOk result (out.new.items ≡ out.old.items ++ decimal (at + 1)) }
    ensures err { OnErr result (Extends out.old.items out.new.items) }
{
    let mut buffer = Buffer::new();
    out.extend_from_slice(buffer.format(at as u128 + 1).as_bytes())
}

// How many races there are.
fn push_count(out: &mut Vec<u8>, races: &[Pair]) -> Result<(), OutOfMemory>
    ensures ok { OnOk result (out.new.items ≡ out.old.items ++ count_line races.now) }
    ensures err { OnErr result (Extends out.old.items out.new.items) }
{
    out.extend_from_slice(b"races ")?;
    push_number(out, races.len() as u64)?;
    out.push(b'\n')?;
    Ok(())
}

fn push_races(out: &mut Vec<u8>, races: &[Pair]) -> Result<(), OutOfMemory>
    ensures ok { OnOk result (out.new.items ≡ out.old.items ++ races_text races.now) }
    ensures err { OnErr result (Extends out.old.items out.new.items) }
{
    push_count(out, races)?;
    push_pairs(out, races)
}

fn push_pairs(out: &mut Vec<u8>, races: &[Pair]) -> Result<(), OutOfMemory>
    ensures ok { OnOk result (out.new.items ≡ out.old.items ++ flat_map race_line races.now) }
    ensures err { OnErr result (Extends out.old.items out.new.items) }
{
    for pair in races {
        push_race(out, *pair)?;
    }
    Ok(())
}

// How many entries a witness has, and its text in a version, where there is one.
fn push_witness(
    alloc: Global,
    out: &mut Vec<u8>,
    witness: Option<&Schedule>,
    version: Version,
) -> Result<(), OutOfMemory>
    ensures ok { OnOk result (out.new.items ≡ out.old.items ++ witness_text version (option_copied witness.entry)) }
    ensures err { OnErr result (Extends out.old.items out.new.items) }
{
    let Some(schedule) = witness else {
        return Ok(());
    };
    out.extend_from_slice(b"witness ")?;
    push_number(out, schedule.entries.len() as u64)?;
    out.push(b'\n')?;
    print_version(alloc, version, schedule, out)
}

// The same, where a part of the text may stand behind what was there after want of memory.
fn push_report(alloc: Global, r: &Report<'_>, out: &mut Vec<u8>) -> Result<(), OutOfMemory>
    ensures ok { OnOk result (out.new.items ≡ out.old.items
        ++ report_text r.now.output.now r.now.verdict r.now.races.now (option_copied r.now.witness) r.now.version) }
    ensures err { OnErr result (Extends out.old.items out.new.items) }
{
    push_output(out, r.output)?;
    push_verdict(out, r.verdict)?;
    push_races(out, r.races)?;
    push_witness(alloc, out, r.witness, r.version)
}

/// Appends the text of a report: a line for each print, the verdict, the races, and the witness in its version where there is one. An `Err` is for want of
/// memory, and leaves `out` as it was.
pub fn text(alloc: Global, r: &Report<'_>, out: &mut Vec<u8>) -> Result<(), OutOfMemory>
    ensures ok { OnOk result (out.new.items ≡ out.old.items
        ++ report_text r.now.output.now r.now.verdict r.now.races.now (option_copied r.now.witness) r.now.version) }
    ensures err { OnErr result (out.new.items ≡ out.old.items) }
{
    let len = out.len();
    match push_report(alloc, r, out) {
        Ok(()) => Ok(()),
        Err(error) => {
            out.truncate(len);
            Err(error)
        }
    }
}

// A report in brief, where a part of the text may stand behind what was there after want of memory.
fn push_brief(
    lines: &[Line],
    verdict: Verdict,
    races: &[Pair],
    out: &mut Vec<u8>,
) -> Result<(), OutOfMemory>
    ensures ok { OnOk result (out.new.items ≡ out.old.items ++ brief_text lines.now verdict races.now) }
    ensures err { OnErr result (Extends out.old.items out.new.items) }
{
    push_output(out, lines)?;
    push_verdict(out, verdict)?;
    push_count(out, races)
}

/// Appends a report in brief: a line for each print, the verdict, and how many races there are. An `Err` is for want of memory, and leaves
/// `out` as it was.
pub fn brief(
    lines: &[Line],
    verdict: Verdict,
    races: &[Pair],
    out: &mut Vec<u8>,
) -> Result<(), OutOfMemory>
    ensures ok { OnOk result (out.new.items ≡ out.old.items ++ brief_text lines.now verdict races.now) }
    ensures err { OnErr result (out.new.items ≡ out.old.items) }
{
    let begin = out.len();
    match push_brief(lines, verdict, races, out) {
        Ok(()) => Ok(()),
        Err(error) => {
            out.truncate(begin);
            Err(error)
        }
    }
}
