//! What a step did to locks and threads.
ghost use Rattle.std.specs.Prelude.{◌≡◌, ◌++◌, OnOk, flat_map};
ghost use Rattle.mr_listing.specs.Events.{acquire_text, end_text, event_text, join_text, note_line, release_text};
ghost use Rattle.mr_listing.specs.Events.{start_line, started_text, woken_line};
ghost use Rattle.mr_listing.specs.Seen.{seen};

use crate::OutOfMemory;
use crate::shown::Shown;
use mr_base::{Event, Status};
use mr_labels::{Stand, ToldStep, function_word, push_number};

/// Appends a line with a word and a number.
pub fn push_note(out: &mut Vec<u8>, word: &str, number: u32) -> Result<(), OutOfMemory>
    ensures { OnOk result (out.new.items ≡ out.old.items ++ note_line word.now number) }
{
    out.extend_from_slice(b"        ")?;
    out.extend_from_slice(word.as_bytes())?;
    push_number(out, number.into())?;
    out.push(b'\n')?;
    Ok(())
}

/// What an acquire came to: the lock was taken, or the thread waits for it.
pub fn acquire_word(status: Option<Status>) -> &'static str
    ensures { result.now ≡ acquire_text status }
{
    match status {
        Some(Status::OnLock(_)) => "waits for lock ",
        _ => "takes lock ",
    }
}

/// What a join came to: the thread had ended, or its end is waited for.
pub fn join_word(status: Option<Status>) -> &'static str
    ensures { result.now ≡ join_text status }
{
    match status {
        Some(Status::OnJoin(_)) => "waits for the end of thread ",
        _ => "joins thread ",
    }
}

/// What a release came to: a thread that waits got the lock, or it is free.
pub fn release_word(woken: &[u32]) -> &'static str
    ensures { result.now ≡ release_text woken.now }
{
    if woken.is_empty() {
        "frees lock "
    } else {
        "gives lock "
    }
}

// Appends which thread was started, which stands in a function.
fn push_start(
    out: &mut Vec<u8>,
    shown: &Shown<'_>,
    number: u32,
    stand: Stand,
) -> Result<(), OutOfMemory>
    ensures { OnOk result (out.new.items ≡ out.old.items ++ start_line (seen shown.now).program number stand) }
{
    out.extend_from_slice(b"        starts thread ")?;
    push_number(out, number.into())?;
    out.extend_from_slice(b" in ")?;
    out.extend_from_slice(function_word(shown.program, stand.function).as_bytes())?;
    out.push(b'\n')?;
    Ok(())
}

// The same, where it may stand nowhere.
fn push_started(
    out: &mut Vec<u8>,
    shown: &Shown<'_>,
    number: u32,
    started: Option<Stand>,
) -> Result<(), OutOfMemory>
    ensures { OnOk result (out.new.items
        ≡ out.old.items ++ started_text (seen shown.now).program number started) }
{
    match started {
        None => push_note(out, "starts thread ", number),
        Some(stand) => push_start(out, shown, number, stand),
    }
}

/// Appends what a step did to a lock or to another thread, which woke these.
pub(crate) fn push_event(
    out: &mut Vec<u8>,
    shown: &Shown<'_>,
    told: &ToldStep,
    event: Event,
    woken: &[u32],
) -> Result<(), OutOfMemory>
    ensures { OnOk result (out.new.items
        ≡ out.old.items ++ event_text (seen shown.now).program told.now event woken.now) }
{
    match event {
        Event::Quiet => Ok(()),
        Event::CreateLock(lock) => push_note(out, "creates lock ", lock),
        Event::Acquire(lock) => push_note(out, acquire_word(told.status), lock),
        Event::Release(lock) => push_note(out, release_word(woken), lock),
        Event::Spawn(thread) => push_started(out, shown, thread, told.started),
        Event::Join(thread) => push_note(out, join_word(told.status), thread),
    }
}

/// Appends that the thread ended, where it did.
pub fn push_end(out: &mut Vec<u8>, ended: bool) -> Result<(), OutOfMemory>
    ensures { OnOk result (out.new.items ≡ out.old.items ++ end_text ended) }
{
    if ended {
        out.extend_from_slice(b"        ends\n")
    } else {
        Ok(())
    }
}

/// Appends a line for each thread that a step woke.
pub fn push_woken(out: &mut Vec<u8>, woken: &[u32]) -> Result<(), OutOfMemory>
    ensures { OnOk result (out.new.items ≡ out.old.items ++ flat_map woken_line woken.now) }
{
    for thread in woken {
        push_note(out, "wakes thread ", *thread)?;
    }
    Ok(())
}
