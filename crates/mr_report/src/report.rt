//! What a run comes to.
use mr_base::Verdict;
use mr_event::Pair;
use mr_sched::{Items, Schedule, Version};

/// A print: the thread that made it, and its bytes.
#[derive(Drop)]
pub struct Line {
    pub thread: u32,
    pub text: Items<u8>,
}

/// The report of a run.
#[derive(Clone, Copy)]
pub struct Report<'a> {
    /// The prints, in the order of the run.
    pub output: &'a [Line],
    pub verdict: Verdict,
    /// The races, by the places of their steps in the run, counted from 0.
    pub races: &'a [Pair],
    /// A schedule that brings the machine to the first race, where it is known.
    pub witness: Option<&'a Schedule>,
    /// The version in which the witness is written.
    pub version: Version,
}
