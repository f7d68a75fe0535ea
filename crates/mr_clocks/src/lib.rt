//! Vector clocks of the steps of a run, a step at a time, and the races that the run shows. (Lamport: happens-before;
//! FastTrack: races.)
//!
//! - [`Analysis`]: what is known of a run. Contracts see it as its clocks, for each step the number of its clock, for
//!   each thread its latest step, the rows of the steps with their links, skips, and for each thread the steps that
//!   woke it: a row has for a key and a thread its steps that are noted under the key. For the steps that act on a lock
//!   and store nothing there is one row of all threads.
//!
//! Definitions: `specs/Clocks.antt` says what the clock of a step is, `Keys` under which keys a step is noted and which
//! it asks, `Rows` and `Marks` how the steps of a key are kept and found, `Spans` how a step with many accesses finds
//! them, `Memos` what of this is kept for steps that do the same, `Skips` how steps that race are passed, `Wakers` how
//! the steps that woke a thread are kept, and `Tracked` what an analysis tracks; happens-before and the races are those
//! of `mr_event`. Of the hints, by which a step first follows one that mostly knows all, there is none: they change no
//! answer. Proved of the public calls:
//!
//! - [`Analysis::new`] tracks the empty list.
//! - [`Analysis::add`], on an analysis that tracks a run without its last step, gives the greatest partner of that
//!   step, and then tracks the run. Where memory runs out, the analysis is unchanged.
//! - [`Analysis::orders`]: whether a step of the run happens before another.
//! - [`Analysis::of_run`] tracks the run that it is given.
//! - [`Analysis::is_ready`]: whether all that happens before a step lies before its thread's front, where the fronts
//!   are a place in the run for each thread. It takes no memory, and looks at each number of the step's clock once.
//! - [`Analysis::needed`]: for each step of the run whether it is one of some steps or happens before one of them, in
//!   one pass over these steps and one over the run. `specs/Whole.antt` says both.
//! - [`RunOrder`]: the same two answers for a run of any length; an analysis has fewer than 2^32 steps.
//! - [`predicted_by_clocks`]: the predicted races of a run; want of memory is its only error.
//! - [`follows`]: for each step of a run whether a given step happens before it, likewise.
#![tactic(auto)]

mod adding;
mod analysis;
mod clock;
mod following;
mod hints;
mod index;
mod keys;
mod known;
mod laws;
mod made;
mod memos;
mod order;
mod rows;
mod runs;
mod skips;
mod spans;
mod wakers;
mod walks;
mod whole;

pub use analysis::Analysis;
pub use laws::related_steps_share;
pub use order::are_rivals;
pub use runs::{follows, predicted_by_clocks};
pub use whole::RunOrder;
