//! What a thread would do next.
use mr_base::Status;
use mr_labels::Stand;
use mr_sched::Items;

/// What a step asks for.
#[derive(Drop)]
pub enum Want {
    /// An address for so many bytes.
    Address { size: u64, align: u64 },
    /// One of these threads, which wait for a lock.
    Waiter { lock: u32, threads: Items<u32> },
}

/// What a thread would do next.
#[derive(Drop)]
pub struct Prospect {
    /// Whether it can go on, and what it waits for otherwise.
    pub status: Option<Status>,
    /// The thread that holds the lock that it waits for.
    pub holder: Option<u32>,
    /// What its step asks for, where it can go on.
    pub wants: Items<Want>,
    /// The rule that its step would break whatever is picked: one thread or one lock too many.
    pub limit: Option<u8>,
}

/// Where a thread stands, with the text of that place, which is empty where it stands nowhere.
#[derive(Drop)]
pub struct Position {
    pub stand: Option<Stand>,
    pub text: Items<u8>,
}
