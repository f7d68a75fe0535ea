//! What operators take.

/// What the operands of an operator are.
#[derive(Clone, Copy)]
pub enum Operands {
    /// Two integers of one type.
    Integers,
    /// Two integers or two bools of one type.
    Bitwise,
    /// Two integers.
    Shifted,
    /// Two of a type that is ordered.
    Compared,
    /// A raw pointer, and how far it is moved.
    Moved,
}
