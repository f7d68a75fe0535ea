//! Where reading stops, and why.
use std::alloc::{AllocError, AllocFailed};

/// The code of a token with which no text can go on.
pub const UNEXPECTED: u8 = 4;
/// The code of a use of a name that its space doesn't hold.
pub const UNKNOWN_NAME: u8 = 5;
/// The code of a second definition of a name in its space.
pub const DOUBLE_NAME: u8 = 6;
/// The code of a bracket or a postfix operator too many.
pub const TOO_DEEP: u8 = 7;
/// The code of a function, global, local, block or statement too many.
pub const TOO_MANY: u8 = 8;
/// The code of a cast between pointers and integers.
pub const EXPOSED: u8 = 9;

/// Where reading stops.
#[derive(Clone, Copy, Debug, PartialEq, Eq)]
pub struct Stop {
    /// The code of the fault.
    pub code: u8,
    /// How many tokens are left, the one at the fault among them.
    pub left: usize,
}

/// Why nothing was read.
#[derive(Clone, Copy, Debug, PartialEq, Eq)]
pub enum ReadFault {
    At(Stop),
    Memory,
}

impl From<AllocError> for ReadFault {
    ghost use Rattle.std.specs.Prelude.{◌≡◌};
    ghost use Rattle.mr_words.specs.declared.fault.ReadFault.TheVariants.{Memory};

    ghost from_gives = { λ _ e. e ≡ Memory };

    fn from(_error: AllocError) -> ReadFault {
        ReadFault::Memory
    }
}

impl<T: Drop> From<AllocFailed<T>> for ReadFault {
    ghost use Rattle.std.specs.Prelude.{◌≡◌};
    ghost use Rattle.mr_words.specs.declared.fault.ReadFault.TheVariants.{Memory};

    ghost from_gives = { λ _ e. e ≡ Memory };

    fn from(_failed: AllocFailed<T>) -> ReadFault {
        ReadFault::Memory
    }
}
