//! The versions of the text of a schedule, and which entries stand on one line.
ghost use Rattle.std.specs.Prelude.{◌≡◌, ◌<◌, ◌≤◌, ◌+◌, None, length};
ghost use Rattle.mr_sched.specs.Limits.{max_entries};
ghost use Rattle.mr_sched.specs.Versions.{are_together, is_joined, joins, last_entry, line_in};

use crate::schedule::{Entry, Schedule};

/// How a schedule is written. Both versions write the same schedules.
#[derive(Clone, Copy, Debug, PartialEq, Eq)]
pub enum Version {
    /// Each entry has a line.
    One,
    /// Entries without picks of one thread that stand behind one another have one line.
    Two,
}

/// What a text spells: a schedule, and the version in which it is written.
#[derive(Debug, Drop)]
pub struct Read {
    pub schedule: Schedule,
    pub version: Version,
}

/// What a line of entries holds: an entry, so many times.
#[derive(Debug, Drop)]
pub(crate) struct Group {
    pub entry: Entry,
    pub count: u64,
}

// Whether an entry stands on the line of the one before it.
pub(crate) fn are_together(v: Version, before: &Entry, entry: &Entry) -> bool
    ensures { result ≡ are_together v before.now entry.now }
{
    match v {
        Version::One => false,
        Version::Two => {
            before.thread == entry.thread && before.picks.is_empty() && entry.picks.is_empty()
        }
    }
}

// Whether an entry belongs on the line of the last of some entries.
#[tactic(auto, using(crate::proofs::GroupLaws::last_there, crate::proofs::GroupLaws::last_none))]
pub(crate) fn joins(v: Version, entries: &[Entry], entry: &Entry) -> bool
    ensures { result ≡ joins v (last_entry None entries.now) entry.now }
{
    match entries.len() {
        0 => false,
        len => are_together(v, &entries[len - 1], entry),
    }
}

// Whether the entry behind the one at a place stands on its line.
pub(crate) fn is_joined(v: Version, entries: &[Entry], at: usize) -> bool
    requires { at + 1 < length entries.now }
    ensures { result ≡ is_joined v entries.now at }
{
    are_together(v, &entries[at], &entries[at + 1])
}

/// The line of an entry, which is counted from 0, in the text of a schedule.
#[tactic(auto, using(crate::proofs::VersionLaws::line_next, crate::proofs::VersionLaws::line_small))]
pub fn line_of(v: Version, s: &Schedule, entry: usize) -> u32
    requires there { entry < length s.now.entries }
    requires few { length s.now.entries ≤ max_entries }
    ensures { result ≡ line_in v s.now.entries entry }
{
    let entries = s.entries.as_slice();
    let mut line: u32 = 3;
    for at in 0..entry {
        if !is_joined(v, entries, at) {
            line += 1;
        }
    }
    line
}
