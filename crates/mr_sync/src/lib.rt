//! The threads of the interpreted program and its locks: which threads can go on, what the others wait for, and who holds each
//! lock. (MiniRust, lang: threads and locks.)
//!
//! Contracts see a [`SyncTable`] as two lists, the status of each thread and the holder of each lock; `specs/Tables.antt` defines
//! what each call gives and leaves. A [`Status`] says whether a thread can go on, and what it waits for otherwise. Public calls, each
//! proved to be exactly that:
//!
//! - [`SyncTable::new`]: one thread, which is enabled, and no lock.
//! - [`SyncTable::spawn`], [`SyncTable::create_lock`]: the next thread, enabled, and the next lock, free. They fail only where the
//!   host's memory runs out.
//! - [`SyncTable::acquire`]: takes a free lock, or makes the thread wait for a taken one.
//! - [`SyncTable::release`]: frees a lock, or hands it to the one waiting thread that is named.
//! - [`SyncTable::join`]: goes on behind a thread that ended, or makes the thread wait for that.
//! - [`SyncTable::end`]: ends a thread, enables all that wait for that, and appends these by rising number.
//! - [`SyncTable::status`], [`SyncTable::threads`], [`SyncTable::locks`], [`SyncTable::holder`], [`SyncTable::waiting`],
//!   [`SyncTable::any_enabled`]: what the tables say.
//!
//! A refused call changes nothing. Only `new`, `spawn`, `create_lock` and `end` take memory. The law [`tables_stay_sound`] says that
//! no call lets a thread wait for a lock that is free or unknown, or for the end of a thread that ended or is unknown.
#![tactic(auto)]

mod laws;
mod status;
mod table;

pub use laws::tables_stay_sound;
pub use mr_base::Status;
pub use std::alloc::AllocError as OutOfMemory;
pub use table::SyncTable;
