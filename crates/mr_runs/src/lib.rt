//! The bytes of an allocation: a list of abstract bytes, of which parts are lent as views.
//!
//! - [`Runs`] is the list. `Runs::uninit` makes one of uninitialised bytes, `len` counts them, `view` lends a part, `write`
//!   replaces a part by other bytes, `write_numbers` by numbers with one provenance, `fill` by one byte repeated, `fill_uninit`
//!   by uninitialised ones, and `copy_out` copies one.
//! - [`View`] is what is lent: its pieces, each uninitialised or initialised with one provenance, in order. `View::len`,
//!   `byte` and `piece` read it, and `part` lends a part of it.
//!
//! The bytes are kept as runs in the order of their positions: so many uninitialised bytes, or the numbers of bytes with one
//! provenance. No run is empty, and no two neighbours could be one run. A run is found by its position in an ordered map. A
//! write or a fill makes anew the runs of its range and what stays of the two at its ends. Bytes that go into a run of bytes with
//! their provenance are put in place, and bytes right behind such a run, over uninitialised ones, make it longer, whether they
//! are written or filled in. Where a change would copy many bytes of a run that it leaves as they are, the marks are set apart
//! first, for good: from then on each byte has a place of its own for its number, the runs keep no numbers, and a change costs
//! what it changes and the search for it.
//!
//! Proved: contracts see a `Runs` as the list of its bytes and a `View` as the list of its pieces. The pieces of a view
//! join to exactly the part that was asked for, and there are no fewer pieces of it. A write or a fill replaces just its range
//! and leaves every other byte as it was. A copy appends the part. Where memory ran out, nothing has changed. No view takes
//! memory.
#![tactic(auto)]

mod exchange;
mod finding;
mod grow;
mod kept;
mod mark;
mod marks;
mod replace;
mod row;
mod run;
mod runs;
mod views;

pub use runs::Runs;
pub use std::alloc::AllocError as OutOfMemory;
pub use views::{Piece, View};
