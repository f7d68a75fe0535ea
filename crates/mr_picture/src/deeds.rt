//! What a step of a program's run did, as it is told beside it: each part behind a line feed.
ghost use Rattle.std.specs.Prelude.{◌≡◌, ◌+◌, ◌++◌, ◌-◌, ◌<◌, OnOk, flat_map, length, option_copied, slice_get};
ghost use Rattle.mr_listing.specs.Held.{held_for};
ghost use Rattle.mr_listing.specs.Seen.{seen};
ghost use Rattle.mr_picture.specs.Deeds.{access_deed, access_deeds, deed_back, deeds, end_deed, event_deed, foot_deeds, in_text, numbered};
ghost use Rattle.mr_picture.specs.Deeds.{print_deed, printed_by, start_deed, wake_deed};

use crate::OutOfMemory;
use crate::scene::foot_at;
use crate::texts::{push, push_cut};
use mr_base::{Access, Event};
use mr_event::Footprint;
use mr_labels::{Stand, ToldStep, function_word, push_number};
use mr_listing::{
    Shown, StepValues, access_word, acquire_word, join_word, push_bytes, push_loaded, push_reached,
    release_word,
};
use mr_report::Line;

/// Appends a word and a number, behind a line feed.
pub fn push_numbered(out: &mut Vec<u8>, word: &str, number: u32) -> Result<(), OutOfMemory>
    ensures { OnOk result (out.new.items ≡ out.old.items ++ numbered word.now number) }
{
    push(out, "\n")?;
    push(out, word)?;
    push_number(out, number.into())
}

// The prints of a step: those behind as many as there were before it.
fn printed_by(lines: &[Line], before: usize, behind: usize) -> &[Line]
    ensures { result.now ≡ printed_by lines.now before behind }
{
    if behind < before {
        return &[];
    }
    if lines.len() < behind {
        return &[];
    }
    &lines[before..behind]
}

// Appends a print.
fn push_print(out: &mut Vec<u8>, line: &Line) -> Result<(), OutOfMemory>
    ensures { OnOk result (out.new.items ≡ out.old.items ++ print_deed line.now) }
{
    push(out, "\nprints > ")?;
    push_cut(out, 240, line.text.as_slice())
}

fn push_prints(out: &mut Vec<u8>, lines: &[Line]) -> Result<(), OutOfMemory>
    ensures { OnOk result (out.new.items ≡ out.old.items ++ flat_map print_deed lines.now) }
{
    for line in lines {
        push_print(out, line)?;
    }
    Ok(())
}

// Appends in which function a thread stands.
fn push_in(out: &mut Vec<u8>, shown: &Shown<'_>, function: u32) -> Result<(), OutOfMemory>
    ensures { OnOk result (out.new.items ≡ out.old.items ++ in_text (seen shown.now) function) }
{
    push(out, " in ")?;
    push(out, function_word(shown.program, function))
}

// Appends which thread was started, and in which function it stands.
fn push_start(
    out: &mut Vec<u8>,
    shown: &Shown<'_>,
    thread: u32,
    started: Option<Stand>,
) -> Result<(), OutOfMemory>
    ensures { OnOk result (out.new.items ≡ out.old.items ++ start_deed (seen shown.now) thread started) }
{
    push_numbered(out, "starts thread ", thread)?;
    match started {
        None => Ok(()),
        Some(stand) => push_in(out, shown, stand.function),
    }
}

// Appends what a step did to a lock or to another thread, which woke these.
fn push_event(
    out: &mut Vec<u8>,
    shown: &Shown<'_>,
    told: &ToldStep,
    event: Event,
    woken: &[u32],
) -> Result<(), OutOfMemory>
    ensures { OnOk result (out.new.items
        ≡ out.old.items ++ event_deed (seen shown.now) told.now event woken.now) }
{
    match event {
        Event::Quiet => Ok(()),
        Event::CreateLock(lock) => push_numbered(out, "creates lock ", lock),
        Event::Acquire(lock) => push_numbered(out, acquire_word(told.status), lock),
        Event::Release(lock) => push_numbered(out, release_word(woken), lock),
        Event::Spawn(thread) => push_start(out, shown, thread, told.started),
        Event::Join(thread) => push_numbered(out, join_word(told.status), thread),
    }
}

/// Appends that the thread of a step ended, where it did, behind a line feed.
pub fn push_ended(out: &mut Vec<u8>, ended: bool) -> Result<(), OutOfMemory>
    ensures { OnOk result (out.new.items ≡ out.old.items ++ end_deed ended) }
{
    if !ended {
        return Ok(());
    }
    push(out, "\nends")
}

/// Appends each thread that a step woke, behind a line feed.
pub fn push_woken(out: &mut Vec<u8>, woken: &[u32]) -> Result<(), OutOfMemory>
    ensures { OnOk result (out.new.items ≡ out.old.items ++ flat_map wake_deed woken.now) }
{
    for thread in woken {
        push_numbered(out, "wakes thread ", *thread)?;
    }
    Ok(())
}

// Appends the access at a position of a step with these values.
fn push_access(
    out: &mut Vec<u8>,
    shown: &Shown<'_>,
    here: Option<Stand>,
    values: Option<&StepValues>,
    at: usize,
    access: Access,
) -> Result<(), OutOfMemory>
    ensures { OnOk result (out.new.items ≡ out.old.items
        ++ access_deed (seen shown.now) here (held_for (option_copied values.entry) at access) access) }
{
    push(out, "\n")?;
    push(out, access_word(access))?;
    push_reached(out, shown, here, access.addr)?;
    push_loaded(out, shown, here, values, at, access)?;
    push(out, ", ")?;
    push_bytes(out, access.len)
}

fn access_at(accesses: &[Access], at: usize) -> Option<Access>
    ensures { result ≡ slice_get accesses.now at }
{
    accesses.get(at).copied()
}

// Appends the access at a position, counted from the last one.
fn push_access_back(
    out: &mut Vec<u8>,
    shown: &Shown<'_>,
    here: Option<Stand>,
    values: Option<&StepValues>,
    accesses: &[Access],
    back: usize,
) -> Result<(), OutOfMemory>
    requires { back < length accesses.now }
    ensures { OnOk result (out.new.items
        ≡ out.old.items ++ deed_back (seen shown.now) here (option_copied values.entry) accesses.now back) }
{
    let at = accesses.len() - 1 - back;
    match access_at(accesses, at) {
        Some(access) => push_access(out, shown, here, values, at, access),
        None => Ok(()),
    }
}

// Appends each access, the last one first.
fn push_accesses(
    out: &mut Vec<u8>,
    shown: &Shown<'_>,
    here: Option<Stand>,
    values: Option<&StepValues>,
    accesses: &[Access],
) -> Result<(), OutOfMemory>
    ensures { OnOk result (out.new.items
        ≡ out.old.items ++ access_deeds (seen shown.now) here (option_copied values.entry) accesses.now) }
{
    for back in 0..accesses.len() {
        push_access_back(out, shown, here, values, accesses, back)?;
    }
    Ok(())
}

// Appends what a footprint tells; nothing of a step that did not complete.
fn push_foot(
    out: &mut Vec<u8>,
    shown: &Shown<'_>,
    values: Option<&StepValues>,
    told: &ToldStep,
    foot: Option<&Footprint>,
) -> Result<(), OutOfMemory>
    ensures { OnOk result (out.new.items
        ≡ out.old.items
        ++ foot_deeds (seen shown.now) (option_copied values.entry) told.now (option_copied foot.entry)) }
{
    match foot {
        None => Ok(()),
        Some(foot) => {
            push_event(out, shown, told, foot.event(), foot.woken())?;
            push_ended(out, foot.ended())?;
            push_woken(out, foot.woken())?;
            push_accesses(out, shown, told.before, values, foot.accesses())
        }
    }
}

/// Appends what a step with these values did: its prints, what it did to locks and threads, and its accesses.
pub(crate) fn push_deeds(
    out: &mut Vec<u8>,
    shown: &Shown<'_>,
    values: Option<&StepValues>,
    told: &ToldStep,
) -> Result<(), OutOfMemory>
    ensures { OnOk result (out.new.items
        ≡ out.old.items ++ deeds (seen shown.now) (option_copied values.entry) told.now) }
{
    let printed = printed_by(shown.lines, told.prints_before, told.prints_behind);
    push_prints(out, printed)?;
    push_foot(out, shown, values, told, foot_at(shown.feet, told.number))
}
