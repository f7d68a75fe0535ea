//! How a run can go on: the form `next P S`, and its texts.
//!
//! - [`reach`]: how far a schedule goes: the machine behind its last entry, or in front of the first that breaks a rule,
//!   with the rule, its place, and the pick that breaks it. Proved: exactly the first broken rule (`mr_start`), and the
//!   machine of the program's run under what stands in front of it; the pick is the last of the fewest with which the entry
//!   breaks that rule already.
//! - [`prospects`]: of each thread whether it can go on, and what its next step asks for: addresses with their sizes and
//!   alignments, or one of the threads that wait for a lock; or what it waits for, and who has the lock. Proved: exactly
//!   as `specs/Prospects.antt` defines over the machine's state.
//!
//! Want of memory apart these have no other error than a rule that the start line breaks.
//!
//! - [`Prospect`], [`Position`]: what a thread would do next, and where it stands.
//! - [`push_prospects`]: the lines of all threads: whether a thread can go on, and what it waits for; its next statement; and
//!   what that asks for, each address with what it is for, where the text tells it: a local of the thread's own function,
//!   or one that a called or started function keeps, or a block of the heap.
//! - [`Broken`], [`push_broken`]: the rule that an entry breaks, with its picks, and the one by which it does.
//! - [`coming_names`]: what the step of a thread would make. Proved: the names of what it makes (`mr_labels`), where it enters
//!   or starts the function that the text names.
//!
//! Proved: exactly the texts of `specs/Texts.antt`; want of memory is their only error.
#![tactic(auto)]

mod broken;
mod coming;
mod culprits;
mod prospect;
mod prospecting;
mod reaching;
mod texts;

pub use broken::Broken;
pub use coming::coming_names;
pub use prospect::{Position, Prospect, Want};
pub use prospecting::prospects;
pub use reaching::{Reached, reach};
pub use std::alloc::AllocError as OutOfMemory;
pub use texts::{push_broken, push_prospects};
