//! The limits of programs, as `specs/Limits.antt` names them.

/// How many globals, functions, and locals of a function there may be.
pub const MAX_ITEMS: u32 = 256;

/// How many blocks a function may have.
pub const MAX_BLOCKS: u32 = 1024;

/// How many statements a block may have.
pub const MAX_STMTS: usize = 4096;

/// How many brackets may be open, and how many postfixes may follow a place.
pub const MAX_OPEN: u32 = 32;

/// The greatest alignment.
pub const MAX_ALIGN: u64 = 4096;

/// The greatest size of a type and of a global in bytes, the greatest count of an array, and how often an item may be
/// repeated.
pub const MAX_SIZE: u64 = 0x10_0000;
