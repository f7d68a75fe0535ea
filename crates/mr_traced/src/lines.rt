//! The lines of a step.
ghost use Rattle.std.specs.Prelude.{◌≡◌, ◌++◌, OnOk, codes, flat_map, option_copied, slice_get};
ghost use Rattle.mr_listing.specs.ReportReport.{count_line};
ghost use Rattle.mr_traced.specs.Seen.{seen};
ghost use Rattle.mr_traced.specs.Steps.{access_line, event_text, foot_text, head_line, thread_text};

use crate::OutOfMemory;
use crate::kept::Shown;
use crate::naming::{push_site_of, site_at};
use mr_base::{Access, Event};
use mr_event::{Footprint, Pair};
use mr_labels::{push_count, push_number};
use mr_listing::{access_word, push_bytes, push_end, push_note, push_woken};

/// The footprint of a step.
pub(crate) fn foot_at<'a>(shown: &Shown<'a>, number: usize) -> Option<&'a Footprint>
    ensures { option_copied result ≡ slice_get (seen shown.now).run number }
{
    shown.run.get(number)
}

// Appends the thread of a step.
fn push_thread(out: &mut Vec<u8>, foot: Option<&Footprint>) -> Result<(), OutOfMemory>
    ensures { OnOk result (out.new.items ≡ out.old.items ++ thread_text (option_copied foot.entry)) }
{
    match foot {
        Some(foot) => push_number(out, foot.thread().into()),
        None => Ok(()),
    }
}

/// Appends the line of a step: its number, its thread, and its site.
pub(crate) fn push_head(
    out: &mut Vec<u8>,
    shown: &Shown<'_>,
    number: usize,
) -> Result<(), OutOfMemory>
    ensures { OnOk result (out.new.items ≡ out.old.items ++ head_line (seen shown.now) number) }
{
    push_count(out, number)?;
    out.extend_from_slice(b"  thread ")?;
    push_thread(out, foot_at(shown, number))?;
    push_site_of(out, shown, site_at(shown, number))?;
    out.push(b'\n')?;
    Ok(())
}

// Appends the line of an access.
fn push_access(out: &mut Vec<u8>, access: Access) -> Result<(), OutOfMemory>
    ensures { OnOk result (out.new.items ≡ out.old.items ++ access_line access) }
{
    out.extend_from_slice(b"        ")?;
    out.extend_from_slice(access_word(access).as_bytes())?;
    out.extend_from_slice(b"address ")?;
    push_number(out, access.addr)?;
    out.extend_from_slice(b", ")?;
    push_bytes(out, access.len)?;
    out.push(b'\n')?;
    Ok(())
}

/// Appends a line for each access.
pub(crate) fn push_accesses(out: &mut Vec<u8>, accesses: &[Access]) -> Result<(), OutOfMemory>
    ensures { OnOk result (out.new.items ≡ out.old.items ++ flat_map access_line accesses.now) }
{
    for access in accesses {
        push_access(out, *access)?;
    }
    Ok(())
}

// Appends what a step did to a lock or to another thread.
fn push_event(out: &mut Vec<u8>, event: Event) -> Result<(), OutOfMemory>
    ensures { OnOk result (out.new.items ≡ out.old.items ++ event_text event) }
{
    match event {
        Event::Quiet => Ok(()),
        Event::CreateLock(lock) => push_note(out, "creates lock ", lock),
        Event::Acquire(lock) => push_note(out, "acquires lock ", lock),
        Event::Release(lock) => push_note(out, "releases lock ", lock),
        Event::Spawn(thread) => push_note(out, "starts thread ", thread),
        Event::Join(thread) => push_note(out, "joins thread ", thread),
    }
}

/// Appends what a step did.
pub(crate) fn push_foot(out: &mut Vec<u8>, foot: Option<&Footprint>) -> Result<(), OutOfMemory>
    ensures { OnOk result (out.new.items ≡ out.old.items ++ foot_text (option_copied foot.entry)) }
{
    match foot {
        None => Ok(()),
        Some(foot) => {
            push_event(out, foot.event())?;
            push_end(out, foot.ended())?;
            push_woken(out, foot.woken())?;
            push_accesses(out, foot.accesses())
        }
    }
}

/// Appends how many races there are.
pub(crate) fn push_races_count(out: &mut Vec<u8>, races: &[Pair]) -> Result<(), OutOfMemory>
    ensures { OnOk result (out.new.items ≡ out.old.items ++ count_line races.now) }
{
    out.extend_from_slice(b"races ")?;
    push_number(out, races.len() as u64)?;
    out.push(b'\n')?;
    Ok(())
}
