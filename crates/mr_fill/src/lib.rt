//! An order of threads becomes a schedule: the form `fill P O`.
//!
//! The text of an order is words between blanks, tabs and line ends, those of Windows too; `#` begins a comment. `T` is one
//! turn of thread T, `T*N` so many, and in `T>W` thread W gets the lock that the step gives up.
//!
//! - [`read_order`]: the order that a text spells, or the line of the first word that spells nothing, or too much. Proved:
//!   exactly as `specs/Orders.antt` defines.
//! - [`words_spell`]: a law: a word is read as the turns that it spells by its bytes, and no other word is read.
//! - [`fill`]: the schedule that an order becomes for a program: for each turn an entry of its thread, with the addresses
//!   that `mr_auto` finds, and the thread that gets a lock: the one that the turn names, or the first that waits. It ends
//!   where the order can't go on, and tells the line and the rule that the turn would break. Proved: exactly the schedule
//!   of `specs/Filling.antt`; it is legal; its entries have the threads of the order, up to the turn at which it ends; and
//!   want of memory is the only error.
//! - [`fill_text`]: the texts of both, from the text of an order; [`push_halt`]: where an order can't go on, as a comment.
//!   Proved: exactly those of `specs/Told.antt`.
//! - [`filled_schedules_are_legal`]: a law of the definitions.
#![tactic(auto)]

mod due;
mod filling;
mod laws;
mod order;
mod picking;
mod spelling;
mod told;
mod turning;

pub use filling::{Filled, Halt, fill};
pub use laws::filled_schedules_are_legal;
pub use order::{MAX_TURNS, Turn, read_order};
pub use spelling::words_spell;
pub use told::{FilledText, fill_text, push_halt};
