//! Which bytes of memory a step reaches, and what it does with them.
use crate::byte::Pointer;

/// What a step does with bytes of memory.
#[derive(Clone, Copy, Debug, PartialEq, Eq)]
pub enum Reaching {
    /// It moves a pointer over them, which must not leave its allocation.
    Moves,
    /// It makes a reference to them.
    Refers,
    Loads,
    Stores,
    /// It reads and changes them in one.
    Changes,
    Frees,
}

/// So many bytes from a pointer on, and what a step does with them.
#[derive(Clone, Copy, Debug, PartialEq, Eq)]
pub struct Reached {
    pub doing: Reaching,
    pub pointer: Pointer,
    pub len: u64,
}
