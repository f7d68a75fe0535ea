//! What the step of an entry tells beside its footprint.
use mr_base::{AllocId, Status};
use mr_sched::{Ask, Items};

/// Where a thread stands: its function, its block, and which statement of it comes next; behind the last one it is the
/// terminator.
#[derive(Clone, Copy)]
pub struct Stand {
    pub thread: u32,
    pub function: u32,
    pub block: u32,
    pub at: usize,
}

/// How a thread stands at the end of a run: where, and whether it can go on.
#[derive(Clone, Copy)]
pub struct Rest {
    pub stand: Option<Stand>,
    pub status: Option<Status>,
}

/// What the step of an entry tells beside its footprint.
#[derive(Drop)]
pub struct ToldStep {
    /// The number of its entry, counted from 0.
    pub number: usize,
    /// The thread that takes it.
    pub thread: u32,
    /// Where the thread stood before it.
    pub before: Option<Stand>,
    /// Where the thread stands behind it: nowhere where it ended, or where the step itself stopped the run.
    pub behind: Option<Stand>,
    /// Whether the thread can go on behind it, and what it waits for otherwise.
    pub status: Option<Status>,
    /// Where the thread stands that it started, if it started one.
    pub started: Option<Stand>,
    /// What it asked for; nothing where its entry has no pick.
    pub asks: Items<Ask>,
    /// The picks of its entry.
    pub picks: Items<u64>,
    /// The allocations that it made, in order; none where it did not complete.
    pub made: Items<AllocId>,
    /// How many prints there were before it.
    pub prints_before: usize,
    /// How many prints there are behind it.
    pub prints_behind: usize,
}
