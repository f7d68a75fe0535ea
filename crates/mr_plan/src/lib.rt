//! The machine over any language of steps: definitions and their laws, and no code. (MiniRust, lang: the machine, threads and locks.)
//!
//! A language says what the next step of a thread is, as a script that asks what the threads share: memory, locks, threads and the output.
//! Its steps make plans: which picks they need, and what they do with them. `specs/Queries.antt` has what a step may ask and what is
//! answered, `Notes` what is noted of it and its footprint, `Machine` plans, states and bare steps, `Legal` the rules that an entry of a
//! schedule may break, and `Runs` machine steps with the race check, runs and verdicts. `Limits` says what each state keeps of the machine's limits. `Places` says at which places of memory a step
//! reads and writes.
//!
//! Proved, in `proofs/`: the run of a script over memory alone is its run in the machine, noted (`MemoryRuns`); what is known of memory and
//! of the notes at each moment of a step (`MemoryFacts`); a machine step completes one step at most (`RunLaws`).
#![tactic(auto)]
