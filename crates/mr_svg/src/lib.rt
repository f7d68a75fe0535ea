//! Marks of a picture, as SVG text. (W3C: SVG 1.1; XML 1.0.)
//!
//! - [`Shape`]: what is drawn, on a grid of whole numbers: lines, ways with a corner, dots and words. [`Sign`]: what it stands for.
//! - [`push_mark`]: appends a mark: its shape, its words, and the title that is shown with it.
//! - [`push_head`] and [`push_foot`]: what stands before the marks of a document, and behind them.
//!
//! `specs/Svg.antt` says what is written, and `specs/Escape.antt` how a text is. Proved: exactly that, and want of memory
//! is the only error. [`escaped_reads_back`] is the law that what is written of a text is character data of XML and reads
//! as that text, so that no text can become markup. A document names nothing outside it, and has no script.
#![tactic(auto)]

mod document;
mod escape;
mod law;
mod mark;
mod shape;

pub use document::{push_foot, push_head};
pub use law::escaped_reads_back;
pub use mark::push_mark;
pub use shape::{Corner, Point, Shape, Sign};
pub use std::alloc::AllocError as OutOfMemory;
