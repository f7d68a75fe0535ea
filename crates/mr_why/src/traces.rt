//! What is said of the faults of traces. This file is made of docs/CODES.md by .ci/codes.py.
ghost use Rattle.std.specs.Prelude.{◌≡◌};
ghost use Rattle.mr_why.specs.Words.{words_of};
ghost use Rattle.mr_why.specs.Traces.{said_of_trace};

use crate::said::Said;
use mr_base::TraceRule;

/// What is said of one of the faults of traces.
pub(crate) fn said_of_trace(it: TraceRule) -> Said
    ensures { words_of result ≡ said_of_trace it }
{
    match it {
        TraceRule::BadMagic => Said {
            what: "The file is no trace: its first five bytes are others.",
            cause: "It is a program or a schedule; or a tool that wrote it left the header out.",
            next: "A trace begins with the bytes 4d 52 54 52 01.",
            example: "mirace offline examples/exit.mr",
        },
        TraceRule::BadField => Said {
            what: "A number has a value that it may not have.",
            cause: "A thread of 1,024 or more, a kind of event or of access that isn't there, an access of no \
                byte, or one past the last address.",
            next: "The guide has the values of each field.",
            example: "an access of length 0",
        },
        TraceRule::Truncated => Said {
            what: "The file ends before the end of a number that must follow.",
            cause: "It was cut, or a count is too large.",
            next: "Look whether the writing program was through.",
            example: "the first 20 bytes of a trace",
        },
        TraceRule::Trailing => Said {
            what: "A byte follows the last step.",
            cause: "The count of steps is too small, or two traces stand in one file.",
            next: "The count behind the header is that of all steps.",
            example: "a trace with one byte more",
        },
        TraceRule::TooLong => Said {
            what: "The file has more than 2^28 bytes.",
            cause: "The run was too long.",
            next: "Trace a front of the run.",
            example: "a file of 268,435,457 bytes",
        },
    }
}
