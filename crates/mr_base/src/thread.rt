//! Whether a thread can go on, and what a step did to locks and threads.

/// Whether a thread can go on. (MiniRust, lang: threads.)
#[derive(Clone, Copy, Debug, PartialEq, Eq)]
pub enum Status {
    Enabled,
    /// It waits for the end of this thread.
    OnJoin(u32),
    /// It waits for this lock.
    OnLock(u32),
    Ended,
}

/// What a step did to locks and threads, with the number of the lock or thread. A failed acquire and a join that
/// blocks count too.
#[derive(Clone, Copy, Debug, PartialEq, Eq)]
pub enum Event {
    /// Nothing.
    Quiet,
    CreateLock(u32),
    Acquire(u32),
    Release(u32),
    Spawn(u32),
    Join(u32),
}
