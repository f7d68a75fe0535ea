//! A broken rule of a schedule.
use mr_base::AllocId;

/// The first rule that a schedule breaks, at its place: its first entry has place 3.
#[derive(Clone, Copy, Debug)]
pub struct Broken {
    pub place: u32,
    pub code: u8,
    pub earlier: Option<AllocId>,
    /// The position of the pick by which the entry breaks it, where it is a rule of one pick.
    pub culprit: Option<usize>,
}
