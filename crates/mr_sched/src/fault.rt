//! Why a schedule could not be read.
ghost use Rattle.std.specs.Prelude.{◌≡◌};
ghost use Rattle.mr_sched.specs.declared.fault.SchedFault.TheVariants.{Memory};

use std::alloc::AllocError;

/// The first line isn't the header, or no LF ends it.
pub const BAD_HEADER: u8 = 50;

/// A line has another form than is due, or no LF ends it.
pub const BAD_LINE: u8 = 51;

/// The text has too many bytes, or too many entries.
pub const TOO_LONG: u8 = 52;

/// Why a schedule could not be read: the first fault of its text, with its line (from 1) and its code, or want of
/// memory.
#[derive(Clone, Copy, Debug, PartialEq, Eq)]
pub enum SchedFault {
    Bad { line: u32, code: u8 },
    Memory,
}

impl From<AllocError> for SchedFault {
    ghost from_gives = { λ _ e. e ≡ Memory };

    fn from(_e: AllocError) -> SchedFault {
        SchedFault::Memory
    }
}
