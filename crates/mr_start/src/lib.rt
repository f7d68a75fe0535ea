//! The start of a run, the step of a thread, and the judging of an entry's picks. (MiniRust, lang: the machine.)
//!
//! `specs/Start.antt` has what the start of a program allocates and stores, and the state before the first entry. `specs/Runs.antt` has
//! whole runs under a schedule, which lie here since all that is said of runs cites them: where the machine stands in the end, the
//! footprints, and which schedules are legal. `specs/Steps.antt` has the step of a thread, as the language of the machine's steps,
//! and `specs/SoundState.antt` what states keep. `specs/Judging.antt` has how one entry's picks are judged, and `specs/Begin.antt` how a
//! start is answered.
//!
//! Public calls: [`judge`], [`begin`] and [`start_asks`].
//!
//! Proved: `judge` passes exactly the picks that break no rule, and tells the first rule that others break, with the least identity that an
//! overlapping range has. `start_asks` tells exactly what the start line needs picks for. `begin` stands exactly where the definitions
//! say, or tells the rule that the start line breaks; memory apart there is no other answer. The laws [`never_ill_formed`], [`legal_schedules`], [`whole_start`], [`one_at_most`] and [`feet_counted`] are of the
//! definitions alone: a legal run of a well-formed program has a rule for each step, a schedule is legal exactly where no rule is the first
//! that it breaks, behind a legal start line each global has its bytes, and a run has one footprint for each step that it completes.
#![tactic(auto)]

mod beginning;
mod failure;
mod globals;
mod judging;
mod laws;
mod pieces;
mod placing;
mod types;

pub use beginning::{Start, StartFault, begin, start_asks};
pub use failure::PickFailure;
pub use judging::judge;
pub use laws::{feet_counted, legal_schedules, never_ill_formed, one_at_most, whole_start};
