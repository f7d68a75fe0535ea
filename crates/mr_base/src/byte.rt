//! Identities of allocations, pointers, and bytes of memory.

/// The identity of an allocation: the thread that made it, and how many that thread had made before.
#[derive(Clone, Copy, Debug, PartialEq, Eq, PartialOrd, Ord)]
pub struct AllocId {
    pub thread: u32,
    pub count: u64,
}

/// An address, with the allocation that it may reach. (MiniRust, memory: pointers and provenance.)
#[derive(Clone, Copy, Debug, PartialEq, Eq)]
pub struct Pointer {
    pub addr: u64,
    /// With `None` it may reach no byte.
    pub prov: Option<AllocId>,
}

/// A byte of memory: nothing yet, or a value with an optional provenance. (MiniRust, memory: abstract bytes.)
#[derive(Clone, Copy, Debug, PartialEq, Eq)]
pub enum AbstractByte {
    Uninit,
    Init(u8, Option<AllocId>),
}

/// What an allocation was made for.
#[derive(Clone, Copy, Debug, PartialEq, Eq)]
pub enum Kind {
    Heap,
    Stack,
    Static,
    Function,
}
