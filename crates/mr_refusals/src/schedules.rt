//! The first rule that a schedule breaks, as it is told.
ghost use Rattle.std.specs.Prelude.{◌≡◌, ◌++◌, ◌-◌, ◌^◌, ◌≤◌, OnOk, length, slice_get};
ghost use Rattle.mr_refusals.specs.Schedules.{broken_told, entry_told, legal_line};

use crate::OutOfMemory;
use crate::heads::{Source, push_file_line, sentence_of};
use mr_labels::push_number;
use mr_next::{Broken, push_broken};
use mr_sched::{Entry, Schedule, Version, line_of};

// Appends an entry that breaks a rule, on its line of the text.
fn push_entry(
    out: &mut Vec<u8>,
    source: Source<'_>,
    line: u32,
    entry: &Entry,
    broken: &Broken,
) -> Result<(), OutOfMemory>
    ensures { OnOk result (out.new.items
        ≡ out.old.items ++ entry_told source.entry.name.now source.entry.text.now line entry.now broken.now) }
{
    push_file_line(out, source, line)?;
    push_broken(out, sentence_of(broken.code), entry, broken)
}

/// Appends an entry of a schedule that breaks a rule, on its line of the text; the first has place 3.
pub(crate) fn push_rule(
    out: &mut Vec<u8>,
    source: Source<'_>,
    v: Version,
    w: &Schedule,
    broken: &Broken,
) -> Result<(), OutOfMemory>
    requires { length w.now.entries ≤ 2 ^ 22 }
    ensures { OnOk result (out.new.items ≡ out.old.items ++ broken_told source.entry.name.now source.entry.text.now v
        w.now.entries broken.now (slice_get w.now.entries (broken.now.place - 3))) }
{
    let at = broken.place.saturating_sub(3) as usize;
    match w.entries.get(at) {
        Some(entry) => push_entry(out, source, line_of(v, w, at), entry, broken),
        None => Ok(()),
    }
}

/// Appends that a schedule of so many entries breaks no rule.
pub(crate) fn push_legal(out: &mut Vec<u8>, file: &str, count: usize) -> Result<(), OutOfMemory>
    ensures { OnOk result (out.new.items ≡ out.old.items ++ legal_line file.now count) }
{
    out.extend_from_slice(file.as_bytes())?;
    out.extend_from_slice(b": legal, ")?;
    push_number(out, count as u64)?;
    out.extend_from_slice(b" entries\n")?;
    Ok(())
}
