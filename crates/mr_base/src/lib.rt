//! What every layer of the machine speaks of. (MiniRust, memory and concurrency; FastTrack: races.)
//!
//! - [`AllocId`], [`Pointer`], [`AbstractByte`] and [`Kind`]: identities of allocations, pointers, bytes of memory, and
//!   what an allocation is for.
//! - [`Access`]: a load or a store. `specs/Accesses.antt` says when two of them overlap, conflict and race.
//! - [`Accesses`]: the accesses of a step, in the order in which it makes them. [`AllocIds`], [`ThreadIds`]: lists of allocations
//!   and of threads. Contracts see each as a list; what appends changes nothing where memory runs out.
//! - [`Status`] and [`Event`]: whether a thread can go on, and what a step did to locks and threads.
//! - [`Reason`] and [`Verdict`]: why a step is undefined behaviour, and what a run came to.
//! - [`Reached`], [`Reaching`]: bytes from a pointer on, and what a step does with them.
//! - [`TraceRule`]: what is wrong with bytes that are no trace, by its number and its name (`specs/TraceRules.antt`).
//! - [`MAX_THREADS`] and [`MAX_LOCKS`]: how many threads and locks a run may have.
//!
//! Public calls: [`Reason::code`], [`Reason::name`] and [`Reason::speaks`], [`ranges_meet`], [`any_twice`], [`is_among`] and
//! [`any_meeting`]; [`conflicts`] and [`races`], [`some_conflict`] and [`some_race`]. Proved: a reason has the number and the name that `specs/Reasons.antt` gives it, and
//! speaks of bytes where `specs/Stops.antt` says so. The law [`codes_differ`] says
//! that reasons with one number are one reason. [`ranges_meet`] answers whether two ranges have an address in common,
//! [`any_twice`] and [`any_meeting`] whether a pair of numbers stands twice in a list, and whether two ranges in it have a byte in
//! common (`specs/Pairs.antt`), in the time of a sort, and [`is_among`] whether a pair stands in a sorted list. [`conflicts`] answers
//! whether some access of the one list overlaps some access of the other, one of the two being a store, and [`races`] the same,
//! where one of the two isn't atomic as well; [`some_conflict`] and [`some_race`] both, of accesses that lie one behind another.
//!
//! A step of the interpreted program is defined as a script: a tree of queries to the state that the threads share, with what is done
//! at each answer. `specs/Stops.antt` has the stops of steps: a reason, and the bytes that it speaks of. `specs/Script.antt` has scripts, how one follows another, their runs over a state, and when a script can never
//! be ill-formed. Proved, in `proofs/`, and no code: the run of one script behind another is the run of the second from where the
//! first went (`ScriptRuns`); a safe script before a safe one is safe; and two scripts, neither of which reads or writes what the
//! other writes, may be exchanged, with the same answers and the same state in the end (`ScriptSwaps`). `ScriptExamples` runs
//! scripts over a counter.
//!
//! For the proofs of other crates, `proofs/Comparisons.antt`, `Options`, `Lists` and `Twins` hold plain facts on tests, options
//! and lists that std doesn't have.
#![tactic(auto)]

mod access;
mod accesses;
mod byte;
mod compare;
mod id_lists;
mod limits;
mod pairs;
mod reached;
mod reason;
mod thread;
mod trace_rule;

pub use access::Access;
pub use accesses::Accesses;
pub use byte::{AbstractByte, AllocId, Kind, Pointer};
pub use compare::{conflicts, races, some_conflict, some_race};
pub use id_lists::{AllocIds, ThreadIds};
pub use limits::{MAX_LOCKS, MAX_THREADS};
pub use pairs::{Pair, any_meeting, any_twice, is_among, ranges_meet};
pub use reached::{Reached, Reaching};
pub use reason::{Reason, Verdict, codes_differ};
pub use std::alloc::AllocError as OutOfMemory;
pub use thread::{Event, Status};
pub use trace_rule::{BAD_FIELD, BAD_MAGIC, TOO_LONG, TRAILING, TRUNCATED, TraceRule};
