//! The words of the text form, by what they stand for.

use crate::expr::{BinaryOp, UnaryOp};
use crate::types::IntType;

/// The word with which a type begins.
#[derive(Clone, Copy, Debug, PartialEq, Eq)]
pub enum TypeWord {
    Int(IntType),
    Bool,
    Raw,
    FnPtr,
    Unit,
    Ref,
    Tuple,
    Array,
    Union,
    Enum,
}

/// The word with which the tree of an enum begins.
#[derive(Clone, Copy, Debug, PartialEq, Eq)]
pub enum TreeWord {
    Known,
    Invalid,
    Branch,
}

/// The word with which a value begins.
#[derive(Clone, Copy, Debug, PartialEq, Eq)]
pub enum ValueWord {
    Int(IntType),
    True,
    False,
    Raw,
    Fn,
    Global,
    Tuple,
    Union,
    Variant,
    Load,
    Disc,
    AddrOf,
    Cast,
    Transmute,
    Unary(UnaryOp),
    Binary(BinaryOp),
}

/// The word with which a statement begins that is no assignment.
#[derive(Clone, Copy, Debug, PartialEq, Eq)]
pub enum StmtWord {
    Live,
    Dead,
    Mention,
    Disc,
    Deinit,
    Validate,
}

/// The word with which a terminator begins.
#[derive(Clone, Copy, Debug, PartialEq, Eq)]
pub enum TermWord {
    Goto,
    Switch,
    Unreachable,
    Return,
    Exit,
    Abort,
    Resume,
    Stop,
    Unwind,
    Call,
    Do,
}

/// The word with which an item of a global begins.
#[derive(Clone, Copy, Debug, PartialEq, Eq)]
pub enum ItemWord {
    Byte(u8),
    Uninit,
    Reloc,
}

/// A kind of brackets.
#[derive(Clone, Copy, Debug, PartialEq, Eq)]
pub enum Bracket {
    Round,
    Curly,
    Square,
}

/// What a name is there for: it defines the thing of this number in its space, or it is used.
#[derive(Clone, Copy, Debug, PartialEq, Eq)]
pub enum Role {
    DefinesGlobal(u32),
    DefinesFunction(u32),
    DefinesLocal(u32),
    DefinesBlock(u32),
    UsesGlobal,
    UsesFunction,
    UsesLocal,
    UsesBlock,
}
