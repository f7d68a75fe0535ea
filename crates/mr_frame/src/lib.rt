//! The frames of a thread: statements, terminators, calls, returns and unwinding. (MiniRust, lang: stack frames.)
//!
//! A thread's next step is a plan: what it finds out by reading, what it then asks a schedule for, and a script over memory
//! (`specs/Steps.antt`). `specs/Frames.antt` has frames and stacks of them, `specs/Sites.antt` where a thread stands and what is due
//! there, `specs/Changes.antt` what statements change in memory, `specs/Switches.antt` where a switch goes on, `specs/Calls.antt`
//! calls, returns and unwinding, and `specs/Operations.antt` intrinsics as far as they are steps of a frame: what they are given,
//! and how they end. What these come to over a memory has a name in `specs/Effects.antt`. `specs/Fits.antt` says what the frames of
//! a well-formed program keep, and `specs/Storage.antt` which storage their locals have.
//!
//! Public calls. Each is proved to come to exactly what these definitions say, unless memory runs out, and to no state without a
//! rule:
//!
//! - [`Stack::enter`]: the stack of a thread that begins with a function. Its storage, at lawful picks, and the stores of its
//!   arguments are never refused.
//! - [`Stack::asks`]: what the next step asks for, where it is no intrinsic. [`Stack::act`]: what it does with lawful picks, and how
//!   the thread goes on ([`Flow`]).
//! - [`Stack::intrinsic`]: the intrinsic that is due, if one is. [`Stack::arguments`]: what it is given, as a [`DoCall`].
//!   [`Stack::finish`]: its end, with a value or none.
//! - [`Stack::payload`]: the last payload.
//! - [`callee`]: the function that a pointer stands for: the one of its address and provenance.
//!
//! What the code of these needs and answers is in `specs/Kept.antt`, `specs/Standing.antt` and `specs/Inside.antt`, and by part in
//! `specs/Acting.antt`, `specs/Beginning.antt`, `specs/Calling.antt`, `specs/Doing.antt` and `specs/Ending.antt`. Of the definitions
//! alone it is proved that no step of a well-formed program comes to a state without a rule and that its frames fit again behind it
//! (`proofs/FrameSafe.antt`, `proofs/DoSafe.antt`), and that each local keeps storage of its own (`proofs/StorageSteps.antt`).
#![tactic(auto)]

mod acts;
mod begins;
mod calls;
mod changes;
mod dos;
mod ends;
mod enters;
mod fitting;
mod flow;
mod frame;
mod look;
mod slot;
mod stack;
mod storage;
mod switches;
mod types;
mod values;

pub use calls::callee;
pub use dos::DoCall;
pub use flow::Flow;
pub use look::Look;
pub use stack::{At, Stack};
