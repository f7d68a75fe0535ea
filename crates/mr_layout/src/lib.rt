//! The layout of types: sizes, alignments, which types have a value, which bytes carry it, and which types are well-formed.
//!
//! Public calls, each proved to give what `specs/` defines by recursion on the type:
//!
//! - [`size`]: how many bytes a type takes, and `None` exactly where those are 2^63 or more (`specs/Sizes.antt`).
//! - [`align`]: the alignment of a type, in bytes.
//! - [`inhabited`]: whether a type has a value.
//! - [`int_bytes`]: how many bytes an integer has.
//! - [`used`]: whether the byte at an offset carries a part of a value (`specs/Used.antt`).
//! - [`broken_rule`] and [`first_broken_rule`]: the first rule that a type breaks, its parts before itself, and `None` where it is
//!   well-formed (`specs/TypeOk.antt`, over `specs/Rules.antt` and `specs/EnumRules.antt`); [`type_ok`]: the number of that rule.
//! - [`is_align`], [`is_fitting`] and [`is_case`]: whether a number is an alignment, whether it is one of an integer type's, and whether
//!   one of some cases has it.
//! - [`find_types`]: the types written in a program, whole or as a part of another, in their order (`specs/Written.antt`).
//! - [`Cache::new`]: a cache that holds each type written in a program, whole or as a part of another, once, and no other type
//!   (`specs/Written.antt`, `specs/Cached.antt`). Its condition is that these types are well-formed.
//! - [`Cache::get`]: the [`Layout`] that is defined for a type, lent by the cache, and `None` exactly where the type isn't held
//!   (`specs/Layouts.antt`). It goes by the type's hash, and looks through no other types.
//! - [`Cache::layout`]: the layout of any well-formed type, worked out only where the type isn't held.
//!
//! Tuples, unions and enums carry their size and alignment, and this crate takes them as written. The rules are on what is written,
//! and a type answers the least code that it breaks once its parts break none:
//!
//! - 20: a size or a count of elements passes 2^20, or what a reference points to has 2^63 bytes or more.
//! - 21: an alignment is no power of two of at most 4,096, of a reference's target too.
//! - 22: a field or a chunk passes the size.
//! - 23: two fields of a tuple overlap. A range of length 0 overlaps nothing.
//! - 24: the written size of a tuple, a union or an enum is no multiple of its alignment.
//! - 25: a variant has another size than its enum or a greater alignment, or its number doesn't fit or stands twice.
//! - 26: a tag passes the size, its number doesn't fit, or it overlaps another tag of the variant or a used byte of the variant's type.
//! - 27: in an enum's tree a leaf names no variant, a branch passes the size, or a case doesn't fit or stands twice.
//! - 28: a union's chunks don't rise strictly by offset, two of them overlap, or a used byte of a field is in none.
//!
//! What other crates rest on, beside the equations of each definition (`proofs/SizeLaws.antt`, `AlignLaws`, `UsedLaws`,
//! `BrokenLaws`, `TreeLaws`, `WrittenLaws`):
//!
//! - `proofs/WellFormed.antt`: what a type that breaks no rule keeps, for each kind. `proofs/OkTests.antt` says it of the test `is_ok`,
//!   and `proofs/Turns.antt` of the next element in a loop.
//! - `proofs/Bounds.antt`, `Aligned`: such a type has at most 2^20 bytes, and a power of two as its alignment that divides its size.
//! - `proofs/AlikeLaws.antt`: to compare each two parts of a list, as the rules do, is to look at what is asked of each part alone and
//!   at the pairs of numbers that `mr_base` compares in the time of a sort. Where memory is wanting, parts are compared one by one.
//! - `proofs/TableLaws.antt`: the bytes that a type uses are marked in a table while its rules are looked at, part by part
//!   (`src/ok.rt`, `src/tables.rt`), so that enums in one another look at no part again. The tags of a variant bear no mark until its
//!   type is done: so it is seen whether the type uses a byte of one.
//! - `proofs/ArrayRows.antt`, `UsedInside`: the elements of arrays in an array are marked as those of one array, and an array of one
//!   element marks what the element does, which lies inside its size.
//! - `proofs/MetLaws.antt`, `RunLaws`, `RowLaws`: what ranges in order meet of a type is found by a search among them for each part of the
//!   type, and of an array by the bytes of one element. `GapLaws` says so of a union's chunks, and `TagLaws` of a variant's tags, where
//!   memory is wanting for a table.
//! - `proofs/MarkLaws.antt`, `FoldLaws`: the same by a table with a mark for each byte in no chunk of a union, in which an array's
//!   row of elements is folded to one. Where a union has many chunks it is looked at so, for a search looks at each of them for
//!   each array.
//! - `proofs/TreeOk.antt`: a tree's leaf names a variant.
//! - `proofs/WrittenParts.antt`: the parts of a well-formed type are well-formed.
#![tactic(auto)]

mod alike;
mod bytes;
mod cache;
mod enum_rules;
mod gaps;
mod marked;
mod marks;
mod met;
mod ok;
mod rules;
mod sizes;
mod tables;
mod written;

pub use bytes::used;
pub use cache::{Cache, Layout};
pub use enum_rules::{is_case, is_fitting};
pub use ok::{broken_rule, first_broken_rule, type_ok};
pub use rules::is_align;
pub use sizes::{align, inhabited, int_bytes, size};
pub use written::{Found, find_types};
