//! What the accesses of a run loaded and stored.
//!
//! A footprint tells where a step loaded and stored, and not what. [`values`] runs a program a second time, under a
//! schedule whose footprints are known, and tells of each step of a part what the bytes of its accesses hold before
//! it and behind it: a load finds them as they are before the step, and a store leaves them as they are behind it.
//!
//! Bytes are read by their number: 1, 2, 4 or 16 of them as a number without a sign, and 8 as a pointer. An
//! allocation is found by the address, since none is used twice. `specs/Values.antt` says what is told. Proved:
//! exactly that, and want of memory is the only error.
#![tactic(auto)]

mod reached;
mod reading;
mod running;

pub use running::values;
