//! The evaluation of places and values, the operators on integers, and the typed load and store. (MiniRust, lang: evaluation of expressions, typed accesses.)
//!
//! What an expression is evaluated to is defined as a script that asks memory (`specs/Evaluation.antt`, `specs/Typed.antt`,
//! `specs/Operators.antt`, `specs/Moves.antt`): range checks and loads, one after the other, each noted with its access and with the
//! allocation that it touches (`specs/Reads.antt`). Over a memory such a script comes to a pointer or a value, to a reason, or to a
//! state without a rule (`specs/Evaluated.antt`); stores are in `specs/Stores.antt`. Public calls, each proved to give exactly that,
//! unless memory runs out, and to leave notes that begin with what they held:
//!
//! - [`place`]: the pointer to a place that stands in the function of its [`Env`].
//! - [`value`]: the value of an expression that stands in the function, which has the shape of the expression's type.
//! - [`load_typed`]: the load of a value of a well-formed type, with the range checks of the references in it.
//! - [`load_scalar`]: the same of an integer, a bool or a pointer, which takes no memory and notes nothing; `load_typed` is it and the
//!   notes for these types (`specs/Noted.antt`).
//! - [`store_typed`]: the store of a value of a type's shape. A refused one changes no memory. [`store_bytes`] and [`store_uninit`] do
//!   the same with bytes and with uninitialised ones, [`store_scalar`] with the bytes of an integer, a bool or a pointer.
//! - [`behind`]: a pointer so many bytes behind another, around the end of the address space.
//! - [`Plain`]: a type that holds no other, in two bytes; contracts see the type (`specs/Plain.antt`).
//! - [`arith`], [`overflowing`], [`shift`], [`compare`], [`cast`], [`negate`], [`invert`]: the operators on integers, over their
//!   bits in two's complement. The bits of a number stand in a `u128`, with zeros above the width of its type. The answer is
//!   the one that `specs/` defines among the unbounded integers (`Arith`, `Shift`, `Compare`, `Cast`), cut to the width of the
//!   type, or the reason why the operation is undefined behaviour; by `proofs/Within.antt` it is bits of the type. They take
//!   no memory.
//!
//! Where one is refused, its script stops with the reason and with the bytes that it speaks of (`specs/Stops.antt` of `mr_base`).
//! The call tells the reason, and [`Notes`] have the bytes that were refused last.
//!
//! None of them comes to a state without a rule: an expression of a well-formed program never does (`proofs/ExprSafe.antt`), so a
//! refusal is undefined behaviour of the program, or want of memory.
#![tactic(auto)]

mod arithmetic;
mod bits;
mod calls;
mod casts;
mod comparisons;
mod env;
mod evaluating;
mod halt;
mod here;
mod kinds;
mod loading;
mod moving;
mod notes;
mod operands;
mod operators;
mod placing;
mod plain;
mod reads;
mod recasting;
mod scalars;
mod scene;
mod search;
mod shifts;
mod stores;
mod targets;
mod valuing;

pub use arithmetic::{ArithOp, arith, overflowing};
pub use calls::{load_typed, place, store_typed, value};
pub use casts::{cast, invert, negate};
pub use comparisons::{CmpOp, compare};
pub use env::Env;
pub use loading::load_scalar;
pub use moving::behind;
pub use mr_mem::Fault;
pub use notes::Notes;
pub use plain::Plain;
pub use scalars::{Scalar, scalar_of};
pub use scene::Scene;
pub use shifts::{ShiftOp, shift};
pub use stores::{store_bytes, store_scalar, store_uninit};
