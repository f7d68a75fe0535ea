//! A picture of a run, as an SVG document: a lane for each thread, its steps from above to below, arrows for what happens
//! before what, and the races.
//!
//! - [`picture`]: the picture of the run of a program, of the steps that are asked for, or else of those about its first
//!   race; it draws 500 steps at most, and says what it leaves out.
//! - [`sketched`]: the same of any run ([`Sketch`]) and of what is drawn of its steps ([`Drawn`]), as of a trace.
//!   [`chosen`]: which steps a picture has. [`push_numbered`], [`push_ended`], [`push_woken`]: parts of what a step did.
//!
//! `specs/Picture.antt` says what is drawn: `Scene` which steps, `Grid` where marks stand, and `Lanes`, `Links`, `Steps`,
//! `Column`, `Ends` and `Legend` which marks there are, all but the legend in `Marks`; `Drawn` and `Deeds` what is told of
//! the steps of a program.
//! Proved: the document is exactly that, and want of memory is the only error. By the laws of the arrows they are edges
//! and lead wherever one step happens before another, and each is drawn by whether Rust's order has it too
//! ([`arrows_tell_whose_they_are`]); the lines of races are those of the first six listed ones both of whose steps are
//! drawn, and where there are more a line above says so; no text can become markup, by the law of `mr_svg`. [`marks_lie_inside`] is the law that each mark lies inside the picture, and
//! [`links_keep_clear`] that no arrow and no line of a race comes near the mark of another step; by
//! [`legend_tells_what_is_drawn`] the legend has a row for each of its signs that is drawn, and no other; by
//! [`started_threads_are_named`] each thread that a told step started stands above the lanes with the function with which
//! it began.
//!
//! The order of a part of a run, as it is drawn (Lamport: happens-before, and pictures of it):
//!
//! - [`Span`]: the steps of a part. [`races_in`]: those races both of whose steps are in it.
//! - [`wakes_thread`]: whether a step woke or started the thread of another one.
//! - [`order_text`]: the way from a step to a later one by edges of happens-before, each with its reason ([`Because`]), or
//!   that nothing orders the two. [`way_to`], [`because_of`], [`because_word`] and [`push_step_word`] are parts of it.
//! - [`witness_steps`], [`left_out`]: the steps of a part in the order of the witness for a race, and those that it leaves
//!   out.
//!
//! `specs/Arrows.antt` and `specs/Witness.antt` say which these are, by happens-before of `mr_event`. Proved: each call
//! answers exactly that, and want of memory is its only error. Laws: [`arrows_are_edges`], each arrow is an edge between
//! two steps of the part, and no other path leads from its first step to its second one; [`paths_are_the_order`], of two
//! steps of a part one happens before the other exactly where a path of lanes and arrows joins them;
//! [`ways_are_the_order`], the way that is told leads by edges from the one to the other, and where there is a way, the
//! one happens before the other;
//! [`witness_is_kept`], the steps of the witness are those of its definition.
#![tactic(auto)]

mod arrows_of;
mod because;
mod column;
mod deeds;
mod drawing;
mod drawn;
mod ends;
mod grid;
mod lanes;
mod law;
mod legend;
mod links;
mod order;
mod order_laws;
mod partners;
mod scene;
mod span;
mod steps;
mod texts;
mod way;
mod way_texts;
mod witness;
mod written;

pub use because::{Because, because_of, because_word};
pub use deeds::{push_ended, push_numbered, push_woken};
pub use drawing::{picture, sketched};
pub use law::{
    arrows_tell_whose_they_are, legend_tells_what_is_drawn, links_keep_clear, marks_lie_inside,
    started_threads_are_named,
};
pub use order::wakes_thread;
pub use order_laws::{arrows_are_edges, paths_are_the_order, ways_are_the_order, witness_is_kept};
pub use scene::{Drawn, Sketch, chosen};
pub use span::{Span, races_in};
pub use std::alloc::AllocError as OutOfMemory;
pub use texts::push_step_word;
pub use way::way_to;
pub use way_texts::order_text;
pub use witness::{left_out, witness_steps};
