//! What is said of the rules of schedules. This file is made of docs/CODES.md by .ci/codes.py.
ghost use Rattle.std.specs.Prelude.{◌≡◌};
ghost use Rattle.mr_why.specs.Words.{words_of};
ghost use Rattle.mr_why.specs.Schedules.{said_of_schedule};

use crate::said::Said;
use mr_sched::ScheduleRule;

/// What is said of one of the rules of schedules.
pub(crate) fn said_of_schedule(it: ScheduleRule) -> Said
    ensures { words_of result ≡ said_of_schedule it }
{
    match it {
        ScheduleRule::BadHeader => Said {
            what: "The first line is no header of a schedule.",
            cause: "The file is a program, its line ends are those of Windows, or the first line isn't ended.",
            next: "The first line is `schedule 1` or `schedule 2`, and nothing else.",
            example: "schedule 3",
        },
        ScheduleRule::BadLine => Said {
            what: "A line has another form.",
            cause: "Two spaces, a tab, a space at the end, a line without an end, line ends of Windows, a \
                comment; in version 2 a `T*1`, or two lines that must be one.",
            next: "An entry is a thread, and behind it the picks that it asks for, with one space in front \
                of each.",
            example: "0  8192",
        },
        ScheduleRule::TooLong => Said {
            what: "The schedule has more than 2^22 entries, or its text more than 2^26 bytes.",
            cause: "A recording without end.",
            next: "Cut it. Each front of a schedule is a schedule.",
            example: "an entry with the number 4,194,305",
        },
        ScheduleRule::NotEnabled => Said {
            what: "The thread of this entry can't go on.",
            cause: "There is no thread of that number yet; it waits for a lock or for the end of another one; \
                it has ended.",
            next: "Take an entry of another thread first: that which holds the lock, or which is waited for.",
            example: "1 before thread 1 was spawned",
        },
        ScheduleRule::MissingPick => Said {
            what: "The step asks for more picks than the entry has.",
            cause: "`live`, a call, `allocate` and `spawn` ask for addresses, and a release where threads \
                wait asks which of them gets the lock.",
            next: "Write an address for each: a multiple of the alignment, whose bytes no earlier allocation \
                has. `mirace auto` makes them.",
            example: "0 where the step is `live x`",
        },
        ScheduleRule::ExtraPick => Said {
            what: "The entry has more picks than the step asks for.",
            cause: "The step is another than was thought: an address for a `goto`, or a waiter where nobody \
                waits.",
            next: "Count the steps: each statement and each terminator is one.",
            example: "0 8192 where the step is `goto b1`",
        },
        ScheduleRule::BadAddress => Said {
            what: "An address may not be picked.",
            cause: "It is 0, no multiple of the alignment, or the bytes would end behind 2^64 - 1.",
            next: "Take a multiple of the alignment, from 16 on.",
            example: "0 8193 where x is a u32",
        },
        ScheduleRule::Reused => Said {
            what: "The bytes at this address were those of an earlier allocation, maybe a dead one.",
            cause: "An address was given twice; functions and globals have addresses too, from the start line.",
            next: "Take an address above all that were used; the two numbers name the earlier allocation: \
                the thread that made it, and how many it had made before.",
            example: "start 16 16",
        },
        ScheduleRule::NotWaiting => Said {
            what: "The thread that is to get the lock doesn't wait for it.",
            cause: "The number behind the release is that of a thread that goes on, waits for another lock or \
                isn't there.",
            next: "Name one of the threads that wait for this lock.",
            example: "0 2 where thread 1 waits",
        },
        ScheduleRule::AfterStop => Said {
            what: "The machine had stopped before this entry.",
            cause: "The program ended, a step was undefined, or two steps raced, before the schedule was \
                through.",
            next: "Cut the schedule behind the step that stopped it.",
            example: "an entry behind that of `exit`",
        },
        ScheduleRule::TooManyThreads => Said {
            what: "The step would make one thread more than 1,024.",
            cause: "A loop that spawns. Threads that have ended count too.",
            next: "Spawn fewer.",
            example: "the 1,024th spawn",
        },
        ScheduleRule::TooManyLocks => Said {
            what: "The step would make one lock more than 4,096.",
            cause: "A loop that creates locks.",
            next: "Create fewer.",
            example: "the 4,097th create_lock",
        },
    }
}
