//! Which programs are well-formed, and the types of their places and values. (MiniRust, lang: well-formedness.)
//!
//! The definition is `specs/Walk.antt`: `faults_of` is the list of all positions of a program at which a rule is
//! broken, each with the rule's code, in the order of the walk; of a type that breaks several rules it has the
//! first. A program is well-formed where it is shaped and the list is empty. What an expression breaks is in
//! `specs/Broken.antt`, its type in `specs/Types.antt`; statements, terminators and kinds of blocks are in
//! `specs/Blocks.antt`. The judge that finds the first fault is in `mr_wf`.
//!
//! A [`Checked`] is a well-formed program: [`Checked::new`] asks for the proof, and [`Checked::program`] hands it
//! on. A [`Known`] is the type of a value. [`field`], [`offset`], [`element`], [`variant`], [`tags`] and
//! [`discriminant`] find the parts of a type, [`local_type`] the type of a local, and [`items_size`] the size of a
//! global's items.
//!
//! Public laws for the layers above: [`keeps_rules`], [`writes_sound_types`], [`equal_types`], [`has_type`] and
//! [`place_has_type`]. What each construct of a well-formed program gives its evaluation is in
//! `proofs/TypedLaws.antt` and `proofs/TypedStmts.antt`. They are proved over the walk that computes a type or the
//! first broken rule (`specs/Judging.antt`, `specs/JudgingBlocks.antt`).
#![tactic(auto)]

mod checked;
mod fault;
mod globals;
mod known;
mod laws;
mod locals;
mod operands;
mod parts;

pub use checked::Checked;
pub use fault::{FormFault, Item};
pub use globals::items_size;
pub use known::Known;
pub use laws::{equal_types, has_type, keeps_rules, place_has_type, writes_sound_types};
pub use locals::local_type;
pub use operands::Operands;
pub use parts::{discriminant, element, field, offset, tags, variant};
