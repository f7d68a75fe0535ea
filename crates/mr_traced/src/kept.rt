//! What is told of a trace.
use crate::form::Site;
use mr_event::{Footprint, Pair};

/// The run of a trace with its races, and the names and the sites of its steps, where there is a file of places.
#[derive(Clone, Copy)]
pub struct Shown<'a> {
    pub run: &'a [Footprint],
    pub races: &'a [Pair],
    pub names: &'a [&'a [u8]],
    pub sites: &'a [Site],
}
