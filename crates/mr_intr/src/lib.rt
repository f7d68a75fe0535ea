//! What the intrinsics do, but for the start of a thread and the look at a payload. (MiniRust, lang: intrinsics.)
//!
//! Each intrinsic is defined as a script of a step: what it finds out first, the plan that it makes of that, which names what it
//! creates and which picks it asks for, and then what it does with them (`specs/Operations.antt`, and `specs/Texts.antt` for what a
//! print writes). Public calls:
//!
//! - [`needs_of`]: what an intrinsic creates and asks a pick for before it acts, or the reason for which it stops first: an
//!   allocation is too large or badly aligned, a lock is unknown or another thread's. Proved to be what the script plans, over each
//!   memory and each notes of the thread. It takes no memory.
//! - [`operate`]: what the intrinsic does then. Proved: memory, threads and locks, the result, what is noted of the step and the text
//!   that a print appends to the output are what the script comes to with the same picks, or the reason is, unless the host's memory
//!   runs out; a result has the shape of its place's type; and a refusal leaves threads, locks and the output as they were
//!   (`specs/Effects.antt`).
//!
//! Both ask that the types fit the intrinsic and that the arguments have the shapes of theirs, and `operate` that the thread can go
//! on and that the picks break no rule. Under that no script comes to a state without a rule (`proofs/Operates.antt`), which also says
//! what is left for the next step.
#![tactic(auto)]

mod args;
mod asks;
mod atomics;
mod effect;
mod heap;
mod locks;
mod need;
mod operating;
mod texts;

pub use asks::needs_of;
pub use effect::Effect;
pub use need::{Creation, Needs};
pub use operating::operate;
