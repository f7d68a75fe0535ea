//! What a turn comes to.
use mr_sched::Entry;

/// What a turn comes to.
#[derive(Drop)]
pub(crate) enum Due {
    /// Its thread takes this entry.
    Takes(Entry),
    /// It would break this rule.
    Broken(u8),
}
