//! What is said of the rules of texts. This file is made of docs/CODES.md by .ci/codes.py.
ghost use Rattle.std.specs.Prelude.{◌≡◌};
ghost use Rattle.mr_why.specs.Words.{words_of};
ghost use Rattle.mr_why.specs.Texts.{said_of_text};

use crate::said::Said;
use mr_lex::TextRule;

/// What is said of one of the rules of texts.
pub(crate) fn said_of_text(it: TextRule) -> Said
    ensures { words_of result ≡ said_of_text it }
{
    match it {
        TextRule::BadByte => Said {
            what: "The text has a byte that begins no token.",
            cause: "A character of another language: a quote, a `!`, a letter with an accent.",
            next: "Look at the line and column that are told, which count bytes; outside comments only \
                letters, digits, blanks and the signs of the grammar may stand.",
            example: "fn ma!n() -> r {",
        },
        TextRule::BadNumber => Said {
            what: "A number is written in a way that numbers aren't.",
            cause: "A zero in front of other digits, as in `07`; a number of 2^128 or more; one of 2^64 or \
                more where a size, an offset or an address stands.",
            next: "Leave the zeros out. Sizes, offsets and addresses are below 2^64.",
            example: "do print(u8 042) to b1;",
        },
        TextRule::LongText => Said {
            what: "The text has more than 2^20 bytes.",
            cause: "A program that was made by another program.",
            next: "Make it smaller: blanks and comments count too.",
            example: "a file of 1,048,577 bytes",
        },
        TextRule::Unexpected => Said {
            what: "Here stands a token with which no program can go on.",
            cause: "A missing `;`, `to` or `,`; a keyword as a name; a place without `load` around it; a \
                number without its type.",
            next: "Read the token at this place and the one before it; the grammar of the guide has what may \
                stand here.",
            example: "x = 7;",
        },
        TextRule::UnknownName => Said {
            what: "A name is used that its space doesn't hold.",
            cause: "A slip of the pen; a local of another function; a block that was renamed; a function or \
                global that isn't there.",
            next: "Locals and blocks belong to one function, functions and globals to the program. Define \
                the name, or write the one that was meant.",
            example: "goto b7; where no block is called b7",
        },
        TextRule::DoubleName => Said {
            what: "A name is defined a second time in its space.",
            cause: "Two locals or two blocks of one function, or two functions or globals, with one name.",
            next: "Rename one of the two. A local and a block may share a name, and so may those of two \
                functions.",
            example: "let r: unit, x: u8, x: u8;",
        },
        TextRule::TooDeep => Said {
            what: "Too many brackets are open, or too many postfixes stand in a row.",
            cause: "An expression or a type that is nested deeper than 32; a place with more than 32 of `.N`, \
                `[V]` and `@N`.",
            next: "Store a part in a local first.",
            example: "not(not(not( .. 33 times",
        },
        TextRule::TooMany => Said {
            what: "There are more things of one kind than there may be.",
            cause: "More than 256 functions, globals or locals, more than 1,024 blocks in a function, or more \
                than 4,096 statements in a block.",
            next: "Spread them over several functions or blocks.",
            example: "a function with 257 locals",
        },
        TextRule::Exposed => Said {
            what: "The operation exposes provenance, which this profile leaves out.",
            cause: "A cast between pointers and integers.",
            next: "Keep the pointer a pointer: move it by `offset` or `wrapping_offset`, or write an address \
                without provenance as `raw N`.",
            example: "do expose_provenance(load(p)) -> n to b1;",
        },
    }
}
