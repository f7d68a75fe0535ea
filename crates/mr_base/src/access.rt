//! A load or a store.

/// A load or a store of `len` bytes from the address `addr` on. (MiniRust, memory and concurrency.)
#[derive(Clone, Copy, Debug, Default, PartialEq, Eq)]
pub struct Access {
    /// It stores, and does not load.
    pub store: bool,
    pub atomic: bool,
    pub addr: u64,
    pub len: u64,
}
