//! Schedules and their limits.
pub use sqlite_items::Items;

/// The bytes that a schedule's text may have at most.
pub const MAX_BYTES: usize = 1 << 26;

/// The entries that a schedule may have at most.
pub const MAX_ENTRIES: usize = 1 << 22;

/// A step: the thread that takes it, and what it picked where the machine leaves a choice.
#[derive(Debug, Drop)]
pub struct Entry {
    pub thread: u32,
    pub picks: Items<u64>,
}

/// The picks that set the start up, and then the steps in their order.
#[derive(Debug, Drop)]
pub struct Schedule {
    pub start: Items<u64>,
    pub entries: Items<Entry>,
}

/// What a step needs a pick for: an address for an allocation of `size` bytes, or which thread that waits for a lock
/// gets it.
#[derive(Clone, Copy, Debug, PartialEq, Eq)]
pub enum Ask {
    Address { size: u64, align: u64 },
    Waiter { lock: u32 },
}
