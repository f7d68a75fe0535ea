//! The limits of the machine, as `specs/Limits.antt` names them.

/// How many threads a run may have.
pub const MAX_THREADS: u32 = 1024;

/// How many locks a run may have.
pub const MAX_LOCKS: u32 = 4096;
