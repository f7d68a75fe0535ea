//! How a thread goes on.

/// How a thread goes on behind a step.
#[derive(Clone, Copy, Debug, PartialEq, Eq)]
pub enum Flow {
    /// With its stack.
    Went,
    /// It has ended: its bottom frame returned, and it isn't thread 0.
    Ended,
    /// The program exits.
    Exit,
    /// The program aborts.
    Abort,
}
