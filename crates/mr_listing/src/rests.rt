//! How the threads of a run stand at its end.
ghost use Rattle.std.specs.Prelude.{◌≡◌, ◌++◌, OnOk, flat_map, length};
ghost use Rattle.std.specs.List.{range_with_len};
ghost use Rattle.mr_listing.specs.Rests.{at_text, is_unstopped, numbered_rest, rest_line, rests_text, status_text};
ghost use Rattle.mr_listing.specs.Rests.{waits_text};
ghost use Rattle.mr_listing.specs.Seen.{seen};

use crate::OutOfMemory;
use crate::shown::Shown;
use crate::spots::push_stand;
use mr_base::{Status, Verdict};
use mr_labels::{Rest, Stand, push_number};

// Appends whether a thread can go on, and what it waits for otherwise.
fn push_status(out: &mut Vec<u8>, status: Status) -> Result<(), OutOfMemory>
    ensures { OnOk result (out.new.items ≡ out.old.items ++ status_text status) }
{
    match status {
        Status::Enabled => out.extend_from_slice(b" can go on"),
        Status::OnJoin(thread) => {
            out.extend_from_slice(b" waits for the end of thread ")?;
            push_number(out, thread.into())
        }
        Status::OnLock(lock) => {
            out.extend_from_slice(b" waits for lock ")?;
            push_number(out, lock.into())
        }
        Status::Ended => out.extend_from_slice(b" ended"),
    }
}

// The same, where it is told.
fn push_waits(out: &mut Vec<u8>, status: Option<Status>) -> Result<(), OutOfMemory>
    ensures { OnOk result (out.new.items ≡ out.old.items ++ waits_text status) }
{
    match status {
        Some(status) => push_status(out, status),
        None => Ok(()),
    }
}

// Appends where a thread stands, if it does.
fn push_at(out: &mut Vec<u8>, shown: &Shown<'_>, stand: Option<Stand>) -> Result<(), OutOfMemory>
    ensures { OnOk result (out.new.items ≡ out.old.items ++ at_text (seen shown.now) stand) }
{
    match stand {
        Some(stand) => {
            out.extend_from_slice(b"; its next step is ")?;
            push_stand(out, shown, Some(stand))
        }
        None => Ok(()),
    }
}

// Appends the line of a thread.
fn push_rest(
    out: &mut Vec<u8>,
    shown: &Shown<'_>,
    thread: usize,
    rest: Rest,
) -> Result<(), OutOfMemory>
    ensures { OnOk result (out.new.items ≡ out.old.items ++ rest_line (seen shown.now) thread rest) }
{
    out.extend_from_slice(b"thread ")?;
    push_number(out, thread as u64)?;
    push_waits(out, rest.status)?;
    push_at(out, shown, rest.stand)?;
    out.push(b'\n')?;
    Ok(())
}

// The same of the thread of a number, if there is one.
fn push_numbered_rest(
    out: &mut Vec<u8>,
    shown: &Shown<'_>,
    thread: usize,
) -> Result<(), OutOfMemory>
    ensures { OnOk result (out.new.items ≡ out.old.items ++ numbered_rest (seen shown.now) thread) }
{
    match shown.rests.get(thread) {
        Some(rest) => push_rest(out, shown, thread, *rest),
        None => Ok(()),
    }
}

// The same of all threads.
fn push_each_rest(out: &mut Vec<u8>, shown: &Shown<'_>) -> Result<(), OutOfMemory>
    ensures { OnOk result (out.new.items ≡ out.old.items
        ++ flat_map (numbered_rest (seen shown.now)) (range_with_len 0 (length (seen shown.now).rests))) }
{
    for thread in 0..shown.rests.len() {
        push_numbered_rest(out, shown, thread)?;
    }
    Ok(())
}

// Whether no step stopped a run.
fn is_unstopped(verdict: Verdict) -> bool
    ensures { result ≡ is_unstopped verdict }
{
    match verdict {
        Verdict::Running | Verdict::Deadlock => true,
        Verdict::Exit | Verdict::Leak | Verdict::Abort | Verdict::Undefined(_) => false,
    }
}

/// Appends how the threads stand at the end of a run that no step stopped.
pub(crate) fn push_rests(out: &mut Vec<u8>, shown: &Shown<'_>) -> Result<(), OutOfMemory>
    ensures { OnOk result (out.new.items ≡ out.old.items ++ rests_text (seen shown.now)) }
{
    if is_unstopped(shown.verdict) {
        push_each_rest(out, shown)
    } else {
        Ok(())
    }
}
