//! What a text of a run is made of.
use mr_ast::Program;
use mr_base::Verdict;
use mr_event::{Footprint, Pair};
use mr_labels::{Allocations, Rest, Stand, ToldStep};
use mr_places::Places;
use mr_report::Line;

/// A program with its text, and what its run tells.
#[derive(Clone, Copy)]
pub struct Shown<'a> {
    /// The text of the program.
    pub text: &'a [u8],
    pub program: &'a Program,
    /// Where its statements stand in the text.
    pub places: &'a Places<'a>,
    /// The allocations of the run.
    pub rows: &'a Allocations,
    /// What its steps tell, or those of a part.
    pub steps: &'a [ToldStep],
    /// Where the thread of each step stood before it, for a text of places.
    pub stands: &'a [Option<Stand>],
    /// How many steps it has.
    pub count: usize,
    /// The footprints of those that completed.
    pub feet: &'a [Footprint],
    /// The prints.
    pub lines: &'a [Line],
    /// The races that it shows.
    pub races: &'a [Pair],
    pub verdict: Verdict,
    /// How its threads stand at the end.
    pub rests: &'a [Rest],
}
