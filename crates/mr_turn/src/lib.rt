//! The turn of a thread: its next step, from the judging of its picks to what it leaves. (MiniRust, lang: the machine.)
//!
//! What a step comes to is defined over scripts (`mr_start/specs/Steps.antt`); `specs/Turning.antt` says how the code answers. The public
//! call [`turn`] finds out what the next step of a thread needs, judges the picks of an entry for that, and takes the step: a statement or a
//! terminator of its frames, an intrinsic, the start of a thread or the look at a payload. Proved: it tells exactly the rule that the picks
//! break, and then nothing changed; or what the step comes to, with what it leaves and notes. Want of memory apart there is no other answer.
//! [`asks`] tells what picks the next step asks for, and which limit it would pass, without taking it (`specs/Asking.antt`): exactly what the
//! step needs by its plan.
//!
//! It hands on what its callers need of `mr_start`: the start of a run ([`begin`], [`Start`], [`StartFault`], and [`PickFailure`], which a
//! turn tells as well), and the laws of the definitions; `specs/Began.antt` names these types for contracts.
#![tactic(auto)]

mod asking;
mod deed;
mod doing;
mod framed;
mod judging;
mod spawning;
mod turning;

pub use asking::asks;
pub use deed::{Deed, TurnFault};
pub use mr_start::{
    PickFailure, Start, StartFault, begin, feet_counted, legal_schedules, never_ill_formed,
    one_at_most, whole_start,
};
pub use turning::turn;
