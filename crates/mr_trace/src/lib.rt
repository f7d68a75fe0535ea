//! The footprints of a run in a file, and the races that they show, without a program.
//!
//! A trace is the bytes of a run: the letters `MRTR` and a 1, how many steps there are, and then each step with its numbers in a
//! fixed order, the lowest byte of a number first. Each run of at most 2^22 steps that keep the machine's limits has one
//! spelling, which `specs/Spelling.antt` gives number by number, each with the values that it may have where it stands. A file
//! that is read has at most 2^28 bytes. Public calls:
//!
//! - [`encode`]: appends the spelling of a run. Proved to be exactly that; an `Err` is for want of memory, and leaves what it
//!   writes to as it was. What was spelled has a spelling of its own: each number fits the bytes that it was given.
//! - [`decode`]: the run that bytes spell, exactly where they are its spelling; otherwise their first fault, by its offset and its
//!   code ([`TraceFault`]), unless memory runs out. `specs/Faults.antt` says which fault is the first. The time is that of
//!   one walk over the bytes, and the memory that of the footprints.
//! - [`offline`]: the predicted races of that run, or the same fault.
//! - [`TraceRule`], of `mr_base`: the number and the name of each fault.
//!
//! Laws: [`limits`] (a run keeps its limits exactly where each of its numbers may stand where it does), [`one_spelling`] (a run has
//! one spelling, and none begins another), [`one_answer`] (each list of bytes has a run or a fault, never both, and one of them
//! alone), [`reads_back`] (what was spelled reads back as the run, and shows its races).
#![tactic(auto)]

mod decoding;
mod encoding;
mod fault;
mod laws;
mod lists;
mod numbers;
mod parts;
mod replay;

pub use decoding::decode;
pub use encoding::encode;
pub use fault::{MAX_BYTES, MAX_STEPS, TraceFault};
pub use laws::{limits, one_answer, one_spelling, reads_back};
pub use mr_base::{BAD_FIELD, BAD_MAGIC, TOO_LONG, TRAILING, TRUNCATED, TraceRule};
pub use mr_event::{Footprint, Pair};
pub use replay::offline;
pub use std::alloc::AllocError as OutOfMemory;
