//! What breaks a rule, and where.
use mr_ast::BlockName;

/// What a broken rule stands in: the global or the function of this position.
#[derive(Clone, Copy, Debug, PartialEq, Eq)]
pub enum Item {
    Static(u32),
    Function(u32),
}

/// A broken rule, and where it is broken.
#[derive(Clone, Copy, Debug, PartialEq, Eq)]
pub struct FormFault {
    pub item: Item,
    /// The block, and none outside blocks.
    pub block: Option<BlockName>,
    /// The position of the statement from 0, the terminator being behind the last; of a local's type that of the local; else 0.
    pub place: u32,
    /// The rule's code.
    pub code: u8,
}
