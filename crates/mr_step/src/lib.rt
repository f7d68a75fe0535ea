//! The machine: what a run of a program under a recorded schedule comes to, one step at a time, with any number of threads.
//!
//! The definitions are the specification machine's (MiniRust, lang), over scripts: the step of a thread (`mr_start`), and over any language of
//! such steps the machine step with its race check and the rules that an entry of a schedule may break (`mr_plan`). `specs/Standing.antt` has
//! what contracts see of a machine, `specs/Answers.antt` how its calls answer, and `specs/Kept.antt` how it keeps what it stands for.
//!
//! Public calls: [`Machine::start`], [`Machine::step`], [`Machine::go`], and what a machine tells of where it stands:
//! [`Machine::verdict`], [`Machine::about`], [`Machine::completed`], [`Machine::last`], [`Machine::lines`] and [`Machine::line`], [`Machine::threads`],
//! [`Machine::enabled`], [`Machine::waiting`], [`Machine::place`], [`Machine::status`], [`Machine::holder`],
//! [`Machine::bytes`] and [`Machine::asks`].
//!
//! Proved: a start and a step lead exactly where the definitions say, or tell the first rule that is broken; a refused entry
//! changes nothing; a completed step hands out its footprint, by [`Machine::go`] none; for want of memory the machine fails,
//! and tells what it told before; what a step asks for is exactly what it needs; memory apart there is no other answer. The
//! laws [`never_ill_formed`], [`legal_schedules`], [`whole_start`], [`one_at_most`], [`feet_counted`], [`swap`], [`limits`]
//! and [`counts`] are of the definitions alone.
#![tactic(auto)]

mod advance;
mod asking;
mod copies;
mod edition;
mod fault;
mod first;
mod footprint;
mod lending;
mod machine;
mod progress;
mod setting;
mod settle;

pub use fault::{StepFault, Turn};
pub use machine::Machine;
pub use mr_exchange::{counts, limits, swap};
pub use mr_turn::{feet_counted, legal_schedules, never_ill_formed, one_at_most, whole_start};
