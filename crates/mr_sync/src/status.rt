//! What a status says, and the threads that wait for an end.

ghost use Rattle.std.specs.Prelude.{◌≡◌, ◌++◌, ◌<◌, ◌≤◌, ◌^◌, length, map, take, OnOk, OnErr, Some};
ghost use Rattle.mr_sync.specs.Tables.{is_enabled as enabled, joiners, on_join, wake};

use crate::OutOfMemory;
use mr_base::Status;

/// Whether a thread of this status can go on.
pub fn is_enabled(status: Status) -> bool
    ensures { result ≡ enabled (Some status) }
{
    matches!(status, Status::Enabled)
}

// Whether a thread of this status waits for the end of thread `t`.
fn joins(status: Status, t: u32) -> bool
    ensures { result ≡ on_join t (Some status) }
{
    match status {
        Status::OnJoin(target) => target == t,
        Status::Enabled | Status::OnLock(_) | Status::Ended => false,
    }
}

/// Appends the threads that wait for the end of thread `t`, by rising number, or nothing where memory runs out.
pub fn append_joiners(statuses: &[Status], t: u32, woken: &mut Vec<u32>) -> Result<(), OutOfMemory>
    requires { length statuses.now < 2 ^ 32 }
    ensures ok { OnOk result (woken.new.items ≡ woken.old.items ++ joiners t 0 statuses.now) }
    ensures err { OnErr result (woken.new.items ≡ woken.old.items) }
{
    let before = woken.len();
    let pushed = push_joiners(statuses, t, woken);
    if pushed.is_err() {
        woken.truncate(before);
    }
    pushed
}

// The same, but some of them may have been appended where memory runs out.
fn push_joiners(statuses: &[Status], t: u32, woken: &mut Vec<u32>) -> Result<(), OutOfMemory>
    requires { length statuses.now < 2 ^ 32 }
    ensures ok { OnOk result (woken.new.items ≡ woken.old.items ++ joiners t 0 statuses.now) }
    ensures err { OnErr result (take (length woken.old.items) woken.new.items ≡ woken.old.items) }
{
    for (i, status) in statuses.iter().enumerate() {
        if joins(*status, t) {
            woken.push(i as u32)?;
        }
    }
    Ok(())
}

/// Enables the threads that wait for the end of thread `t`.
pub fn wake_joiners(statuses: &mut [Status], t: u32)
    ensures { statuses.new ≡ map (wake t) statuses.old }
{
    for status in statuses.iter_mut() {
        if joins(*status, t) {
            *status = Status::Enabled;
        }
    }
}
