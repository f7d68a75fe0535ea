//! A schedule that is drawn from a number, and the run that it is drawn in.
//!
//! The number decides at each step which enabled thread goes on and which waiting thread gets a lock; the addresses rise from 65,536 on.
//! `specs/Drawing.antt` defines the schedule over the machine of MiniRust: its start line, and entry by entry what the machine asks for.
//!
//! - [`draw`]: steps the machine of a program once, drawing each entry from a number, and hands out the schedule and the
//!   machine behind its last entry; what is kept of the steps the caller chooses (`mr_run`: `Record`). Proved: the
//!   schedule is exactly the defined one, and legal; machine and record are those of the program's run under it; want of
//!   memory is its only error.
//! - [`waiting_threads`], [`address`], [`start_picks`], [`make_step`]: for a caller that gives the threads itself: the
//!   threads that wait for a lock, an address, the picks of the start line, and the step of an entry that breaks no rule.
//! - [`drawn_schedules_are_legal`], a law: of a well-formed program the drawn schedule is legal, so that it is read back as any other.
#![tactic(auto)]

mod candidates;
mod drawing;
mod laws;
mod picking;
mod running;

pub use candidates::waiting_threads;
pub use drawing::{Drawn, draw};
pub use laws::drawn_schedules_are_legal;
pub use picking::{address, start_picks};
pub use running::make_step;
