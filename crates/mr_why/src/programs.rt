//! What is said of the rules of programs. This file is made of docs/CODES.md by .ci/codes.py.
ghost use Rattle.std.specs.Prelude.{◌≡◌};
ghost use Rattle.mr_why.specs.Words.{words_of};
ghost use Rattle.mr_why.specs.Programs.{said_of_program};

use crate::said::Said;
use mr_ast::Rule;

/// What is said of one of the rules of programs.
pub(crate) fn said_of_program(it: Rule) -> Said
    ensures { words_of result ≡ said_of_program it }
{
    match it {
        Rule::TypeSize => Said {
            what: "The size of a type is above what a type may have.",
            cause: "A size, an array's count, or the product of the two above 1,048,576.",
            next: "Large data live on the heap: `allocate` takes up to 2^63 - 1 bytes.",
            example: "x: array(2097152, u8)",
        },
        Rule::TypeAlign => Said {
            what: "An alignment is no power of two of at most 4,096.",
            cause: "An alignment of 0, of 3, or of 8,192.",
            next: "Take 1, 2, 4, 8 and so on up to 4,096.",
            example: "x: tuple size 3 align 3 { }",
        },
        Rule::FieldOutside => Said {
            what: "A field, or a chunk of a union, ends behind the last byte of its type.",
            cause: "A size that is too small, or an offset that is too large.",
            next: "Offset and size of the field together may be at most the size of the type.",
            example: "x: tuple size 4 align 4 { 2: u32 }",
        },
        Rule::FieldOverlap => Said {
            what: "Two fields of a tuple share a byte.",
            cause: "An offset that is smaller than where the field before ends.",
            next: "Move the field. Fields that are to overlap belong into a union.",
            example: "x: tuple size 4 align 4 { 0: u32, 2: u8 }",
        },
        Rule::SizeMultiple => Said {
            what: "The size of a tuple, union or enum can't be divided by its alignment.",
            cause: "Padding at the end was left out.",
            next: "Round the size up to a multiple of the alignment.",
            example: "x: tuple size 5 align 4 { 0: u32, 4: u8 }",
        },
        Rule::EnumVariant => Said {
            what: "A variant doesn't fit its enum.",
            cause: "It has another size than the enum or a greater alignment, or its number is out of range \
                or stands twice.",
            next: "Give each variant the enum's own size, and each its own number of the discriminant's type.",
            example: "enum size 2 align 1 disc u8 { 0: tuple size 1 align 1 { } tag { } } known 0",
        },
        Rule::EnumTag => Said {
            what: "A tag doesn't fit its variant.",
            cause: "It ends behind the last byte, its number is out of range, or it lies on another tag or on \
                data of the variant.",
            next: "Put the tag into bytes that the variant's own fields don't use.",
            example: ".. { 0: tuple size 1 align 1 { 0: u8 } tag { 0: u8 = 1 } } ..",
        },
        Rule::EnumTree => Said {
            what: "The tree by which variants are told apart isn't right.",
            cause: "It leads to a variant that isn't there, reads behind the last byte, or has a case out of \
                range or twice.",
            next: "Each case has its own number of the integer that is read there; each `known N` names a \
                variant.",
            example: "branch 0 u8 { 1 => known 0, 1 => known 0, _ => invalid }",
        },
        Rule::UnionChunk => Said {
            what: "The chunks of a union aren't right.",
            cause: "They aren't in order, two share a byte, or a field has data that no chunk keeps.",
            next: "List the ranges of bytes that carry data, by rising offset, so that they hold those of \
                all fields.",
            example: "union size 4 align 4 { 0: u32 } chunks { 0 2 }",
        },
        Rule::Arguments => Said {
            what: "A local is an argument twice, or is an argument and the returned local too.",
            cause: "One name twice in the head of a function.",
            next: "Give each argument and the result a local of its own.",
            example: "fn f(x, x) -> r {",
        },
        Rule::FirstBlock => Said {
            what: "A function begins with a block that isn't regular.",
            cause: "A cleanup block in front of the first regular one.",
            next: "Put the block that is entered first to the front.",
            example: "fn main() -> r { let r: unit; b0 cleanup: exit; }",
        },
        Rule::BlockKind => Said {
            what: "A block ends in a way that its kind doesn't have, or leads to a block of the wrong kind.",
            cause: "`return` in a cleanup block; a `goto` from a regular block to a catch block; `unwind` of \
                a call to a regular one.",
            next: "The table of the kinds of blocks in the guide says what each may do.",
            example: "b0 cleanup: return;",
        },
        Rule::Place => Said {
            what: "There is no such place.",
            cause: "A field, variant or element that the type hasn't; an index that is no `u64`; `deref` of \
                something that is no pointer.",
            next: "Look at the type of what stands in front. An index is a `u64`: write `[u64 0]`.",
            example: "x.3 of a tuple with two fields",
        },
        Rule::Operand => Said {
            what: "An operator is given what it doesn't take.",
            cause: "Two integers of different types; a bool beside an integer; an `offset` by anything but an \
                `i64`; a place where a value is meant.",
            next: "Both operands of arithmetic and comparison have one type. Use `cast`, and `load` for the \
                value at a place.",
            example: "add(u32 1, u8 2)",
        },
        Rule::ConstRange => Said {
            what: "A number is out of its type's range.",
            cause: "300 as a `u8`, or a minus in front of an unsigned number.",
            next: "Take a wider type, or the number that the bits mean.",
            example: "u8 300",
        },
        Rule::Assign => Said {
            what: "A value of one type is stored to a place of another.",
            cause: "An integer of another width; a type that is written in another way, field by field.",
            next: "Types are the same where they are written the same way. Use `cast` or `transmute`.",
            example: "x = u8 1; where x is a u32",
        },
        Rule::Discriminant => Said {
            what: "`disc` of something that is no enum, or of a variant that the enum hasn't.",
            cause: "A place of another type, or a number that no variant has.",
            next: "Give it an enum's place and one of its numbers.",
            example: "disc x = 7; of an enum with the variants 0 and 1",
        },
        Rule::LiveLocal => Said {
            what: "`live` or `dead` of an argument, or of the local that is returned.",
            cause: "These have storage as long as their function runs.",
            next: "Leave it out, or use another local.",
            example: "live r; where r is what the function returns",
        },
        Rule::Switch => Said {
            what: "A switch isn't right.",
            cause: "What is switched on is neither integer nor bool, a case is out of its range, or it stands \
                twice.",
            next: "The cases of a bool are 0 and 1. `_ => block` is last and always there.",
            example: "switch true { 2 => b1, _ => b2 };",
        },
        Rule::Callee => Said {
            what: "What is called is no `fnptr`.",
            cause: "A pointer of another type, or an integer.",
            next: "Write `fn NAME`, load a place of type `fnptr`, or transmute to it.",
            example: "call raw 16() -> r to b1;",
        },
        Rule::Intrinsic => Said {
            what: "An intrinsic has the wrong arguments or the wrong result.",
            cause: "A number too many or too few; a `u64` where a lock's or a thread's number is a `u32`; a \
                result where it gives none, or none where it gives one.",
            next: "The table of intrinsics in the guide says what each takes and gives.",
            example: "do acquire(u64 0) to b1;",
        },
        Rule::Payload => Said {
            what: "What is thrown by `unwind` isn't of type `raw`.",
            cause: "A reference or an integer as payload.",
            next: "Throw a `raw` pointer, for example to a global that has the data.",
            example: "unwind u8 1 to b1;",
        },
        Rule::GlobalRef => Said {
            what: "A pointer in a global doesn't fit.",
            cause: "It leads further than the end of the other global, or into a function.",
            next: "Offsets go from 0 to the size of the global; of a function 0 alone.",
            example: "global g align 8 { &g + 9 }",
        },
        Rule::GlobalForm => Said {
            what: "A global has a size or an alignment that it may not have.",
            cause: "More than 1,048,576 bytes, or an alignment that no type could have.",
            next: "Take a smaller one, several globals, or the heap.",
            example: "global g align 3 { 0 }",
        },
        Rule::MainForm => Said {
            what: "The function that the program starts with takes arguments.",
            cause: "The `main` line names a function with arguments.",
            next: "Give `main` none, and let it call that function.",
            example: "fn main(x) -> r { .. } main main",
        },
        Rule::Aggregate => Said {
            what: "The parts of a value are not those of its type.",
            cause: "Too many or too few of them, or one of another type.",
            next: "A tuple has a part for each field, an array for each element, a union and a variant have \
                one.",
            example: "tuple(array(2, u8), u8 1)",
        },
        Rule::Cast => Said {
            what: "A cast isn't one.",
            cause: "`cast` of a pointer, `transmute` to another size, `addrof` as a type that is neither \
                `raw` nor `ref`.",
            next: "A pointer keeps its provenance by `transmute` between pointer types.",
            example: "cast(u64, load(p)) where p is a raw",
        },
    }
}
