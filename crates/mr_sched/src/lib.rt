//! Recorded schedules, and their text.
//!
//! A schedule says which thread takes each step of a run, and which choices the run made. Its text is lines of numbers,
//! and each schedule has one in each of two versions: in version 1 each entry has a line, and in version 2 entries without picks
//! of one thread that stand behind one another have one. Public calls: `read_version`, `print_version`, `print`, which writes version 1, and
//! `line_of`, the line of an entry, and those of [`Chooser`], which makes a schedule's choices from a number.
//!
//! Proved of `read_version`: it gives a schedule and a version exactly where the text is that of the schedule in the version, and
//! otherwise the first fault of the text with its line, unless memory runs out. Proved of `print_version`: it writes the one
//! text of the schedule in the version. The laws `one_schedule` and `reads_back` say that a text has one schedule and version at most, and
//! that what is printed of a schedule within the limits reads back; `line_each`, that version 1 has a line for each entry; `line_holds`, that the line of an entry holds it. Want
//! of memory leaves what `print` writes to as it was. [`ScheduleRule`] has the number
//! and the name of each rule that a schedule may break; the law `codes_differ` says that rules with one number are one rule.
//! [`Chooser`] draws threads and waiters, and finds addresses, exactly as `specs/Chooser.antt` says.
#![tactic(auto)]

mod chooser;
mod fault;
mod laws;
mod printing;
mod reading;
mod rule;
mod schedule;
mod version;

pub use chooser::Chooser;
pub use fault::{BAD_HEADER, BAD_LINE, SchedFault, TOO_LONG};
pub use laws::{line_each, line_holds, one_schedule, reads_back};
pub use printing::{print, print_version};
pub use reading::read_version;
pub use rule::{ScheduleRule, codes_differ};
pub use schedule::{Ask, Entry, Items, MAX_BYTES, MAX_ENTRIES, Schedule};
pub use version::{Read, Version, line_of};
