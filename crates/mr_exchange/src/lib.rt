//! Which neighbouring steps of a program's run may be exchanged, and what a witness is: definitions and a law. (Mazurkiewicz:
//! traces; which steps are independent, and witnesses, are this project's.)
//!
//! - `specs/Exchange.antt`: runs of entries by bare steps.
//! - `specs/Counted.antt`: whether a run ends with an entry that itself stops.
//! - `specs/Witness.antt`: the kept schedule of a race, and what makes a schedule a witness for it.
//!
//! Proved: the law [`swap`]. Of two neighbouring steps of different threads, where the first doesn't wake the thread of the
//! second and the second doesn't depend on the first, the entries may be exchanged: both break no rule, complete with the
//! same footprints and prints, and lead to the same state. It holds at each state that a run may come to, and for whole runs.
//!
//! And of a legal run of a well-formed program: the law [`limits`], that each footprint keeps the machine's limits, and the law
//! [`counts`], that there is one for each entry, or one fewer exactly where the last entry itself stops.
//!
//! Behind them stand proofs, without code, of what each step of a thread tells of itself, and what each state keeps, over the
//! definitions of `specs/Swap.antt` and of `mr_start`.
//!
//! Whether two neighbouring steps may be exchanged is told by what they note: their events, and the ranges of their new allocations;
//! their limits also by how often they wake threads.
//! `proofs/Tracked.antt` reads what a script notes from its form alone, whatever it is answered: a query with its reply adds what
//! `proofs/Marks.antt` says, and what is tracked so holds of each run. `proofs/Parts.antt` has the parts that ask memory alone. They
//! note no event, and evaluation notes no allocation either.
//!
//! Proved of the language of the machine, without a premise:
//!
//! - `thread_step_tells` (`proofs/Telling.antt`): a step asks for a waiter only of a lock that it looked at. A step that goes on makes
//!   exactly the allocations that it asked for, at the picked addresses and in this order; all its events are one; it creates what
//!   its plan says and nothing else; it starts a thread where it hands one out; and the threads that it wakes rise. By form: calls and returns in `proofs/Calls.antt`, statements and
//!   terminators in `proofs/FrameSteps.antt`, intrinsics in `proofs/Intrinsics.antt`, the start and the end of threads in
//!   `proofs/Threads.antt`; what is told is in `proofs/Tells.antt`.
//! - `sound_is_sane` (`proofs/Sane.antt`): what each state of a run of a well-formed program keeps is what the exchange asks of a
//!   state.
//!
//! The swap law and the law of limits are stated over any language of steps. Two neighbouring steps of different threads may be
//! exchanged where the first doesn't wake the thread of the second, and
//! the second doesn't depend on the first, as `mr_event` tests it on their footprints: in the other order their entries break no
//! rule, and their steps complete with the same notes and lead to the same state. `specs/Swap.antt` states it, with what a
//! language owes for it: a step tells what it does. `Spots` has the places of all that threads share, and at which of
//! them a step reads and writes, as its notes tell; `Meets` when picks meet what a step asks for, as a relation in which no
//! order of ranges plays a part. `Limits` states the law of limits: the footprint of each completed step keeps the machine's limits.
//!
//! Proved, in `proofs/`: the law (`SwapLaw`). For it: picks break no rule exactly where they meet the asks, and those of
//! neighbouring entries meet them in either order (`MeetsLaws`, `LegalEntries`); where the spots that a query reads are the
//! same, it answers the same and changes the same (`LocalCalls`); what is noted only grows, a thread that goes on stays enabled,
//! and states with the same at each spot are one (`StepGrows`); what is known of memory and of the threads' statuses
//! behind a step (`StatusFacts`, `StepRuns`); and neither of two independent steps reads or writes what the other one writes
//! (`FreeSteps`, `Independence`). And the law of limits (`LimitLaw`): what a step notes of threads and locks is there, and at most one of
//! each is new (`Noted`); the threads that it wakes rise (`Rising`); and its accesses lie in allocations (`AccessBounds` of `mr_plan`). `SwapExamples` has a small language that tells what it does, and two of its steps, exchanged.
//!
//! What holds of every machine whose independent neighbours may be exchanged speaks of steps by their places in a run of
//! `mr_event`, and has no code. `specs/Trace.antt` says what such a machine is, what the first pair of a run is, and which choices of steps
//! serve as a witness for it; `specs/Shown.antt` what a witness shows. Proved as clauses of the laws:
//!
//! - [`first_of_predicted`]: a predicted race is a step with its greatest partner, and the head of the list is the
//!   first pair; where the list is empty there is none.
//! - [`witness_choices`]: the kept steps of a predicted race are such a choice, and so are the fewer ones of the
//!   short witness.
//! - [`calm_before_the_pair`]: ordered by such a choice, no step but the last is reported behind its neighbour, the last is,
//!   and the steps of each thread are a prefix of its recorded ones.
//! - [`rearranged_has_none`]: a rearrangement of a run without a race pair has none.
//! - [`placed_is_rearranged`]: an order that places each step behind all that happen before it is a rearrangement.
//!
//! What speaks of every machine is too large for a clause. It is stated in `specs/Shown.antt` and proved for the crates
//! above, which name it for their machine: `EveryChoiceShows` by `proofs/Witness.antt` (a choice of steps shows the first
//! pair to the machine), `EveryOrderRuns` by `proofs/Rearranged.antt` (a rearrangement of a run without a race pair runs,
//! to the same end).
#![tactic(auto)]

mod laws;
mod rearranging;

pub use laws::{counts, limits, swap};
pub use rearranging::{
    calm_before_the_pair, first_of_predicted, placed_is_rearranged, rearranged_has_none,
    witness_choices,
};
