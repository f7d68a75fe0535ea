//! What is said of the reasons of undefined behaviour. This file is made of docs/CODES.md by .ci/codes.py.
ghost use Rattle.std.specs.Prelude.{◌≡◌};
ghost use Rattle.mr_why.specs.Words.{words_of};
ghost use Rattle.mr_why.specs.Reasons.{reason_of, said_of_reason};

use crate::said::Said;
use mr_base::Reason;

// What it says.
fn what_of(it: Reason) -> &'static str
    ensures { result.now ≡ (said_of_reason it).what }
{
    match it {
        Reason::DataRace => "Two steps of two threads race, and one was right behind the other.",
        Reason::Unreachable => "`unreachable` was reached.",
        Reason::DeadLocal => "A local is used that has no storage.",
        Reason::Misaligned => "The address of an access is no multiple of its type's alignment.",
        Reason::NoProvenance => "Bytes are used through a pointer that has no provenance.",
        Reason::DeadAllocation => "The bytes are those of an allocation that is dead.",
        Reason::OutOfBounds => "The bytes lie outside the pointer's allocation.",
        Reason::InvalidValue => "The loaded bytes mean no value of the type.",
        Reason::DanglingReference =>
            "A reference in a value leads to bytes that aren't those of a live allocation.",
        Reason::Overflow => "The result of an unchecked operator doesn't fit its type.",
        Reason::ZeroDivisor => "A division by 0, or its remainder.",
        Reason::DivOverflow => "The least number of a type is divided by -1.",
        Reason::ShiftAmount => "An unchecked shift by a negative number, or by the width or more.",
        Reason::OffsetOverflow => "A pointer is moved below address 0 or above 2^64 - 1.",
        Reason::IndexOutOfRange => "An index isn't below the array's count.",
        Reason::InvalidDiscriminant => "The bytes of an enum name none of its variants.",
        Reason::TransmuteInvalid => "The bytes of a transmute mean no value of its type.",
        Reason::NotAFunction =>
            "What is called or spawned doesn't point to the begin of a function.",
        Reason::SignatureMismatch =>
            "The arguments or the place of a call aren't those of its function.",
        Reason::NoReturnBlock => "A function returns to a call without `to`.",
        Reason::MainReturned => "The first frame of thread 0 returns.",
        Reason::NoUnwindBlock => "A function resumes to a call without `unwind`.",
        Reason::UnwoundThread => "The first frame of a thread resumes.",
        Reason::NoPayload => "The thread has no payload.",
        Reason::AssumeFalse => "`assume` of false.",
        Reason::SizeTooLarge => "An allocation of 2^63 bytes or more.",
        Reason::BadAlign => "The alignment of an allocation is no power of two.",
        Reason::FreeAddress => "A pointer is freed that isn't to the begin of its allocation.",
        Reason::FreeKind => "Something is freed that `allocate` didn't make.",
        Reason::FreeSize => "An allocation is freed with another size.",
        Reason::FreeAlign => "An allocation is freed with another alignment.",
        Reason::UnknownThread => "A thread is joined that isn't there.",
        Reason::UnknownLock => "A lock is taken or given back that isn't there.",
        Reason::NotHolder => "A lock is given back by a thread that doesn't have it.",
    }
}

// Usual cause.
fn cause_of(it: Reason) -> &'static str
    ensures { result.now ≡ (said_of_reason it).cause }
{
    match it {
        Reason::DataRace =>
            "Both use some byte, at least one stores, at least one of the two isn't atomic, and \
                nothing orders them.",
        Reason::Unreachable => "A case was thought to be impossible.",
        Reason::DeadLocal => "`live` is missing, or `dead` came before.",
        Reason::Misaligned =>
            "A pointer that was moved by a number of bytes, or a field of a packed type behind `deref`.",
        Reason::NoProvenance =>
            "An address that was written as a number, or a pointer that went through an integer.",
        Reason::DeadAllocation => "It was freed, its local is dead, or its function has returned.",
        Reason::OutOfBounds => "An index or an offset too far, also by one.",
        Reason::InvalidValue =>
            "They are uninitialised; or a bool above 1, a null reference, an enum that its tree \
                doesn't know.",
        Reason::DanglingReference =>
            "What it points to was freed or is too small, or it was made from a number.",
        Reason::Overflow => "`add_unchecked`, `sub_unchecked` or `mul_unchecked` past the range.",
        Reason::ZeroDivisor => "A divisor that wasn't looked at.",
        Reason::DivOverflow => "The result is one more than the greatest number.",
        Reason::ShiftAmount => "An amount that wasn't looked at.",
        Reason::OffsetOverflow => "An offset with the wrong sign.",
        Reason::IndexOutOfRange => "A loop that goes one too far.",
        Reason::InvalidDiscriminant => "They are uninitialised, or were stored with another type.",
        Reason::TransmuteInvalid => "A number that is no bool or no variant.",
        Reason::NotAFunction => "A pointer to data, a moved pointer, or one made from a number.",
        Reason::SignatureMismatch =>
            "Another number or another type; a spawned function that doesn't take one `raw` and return \
                `unit`.",
        Reason::NoReturnBlock => "The call was thought never to return.",
        Reason::MainReturned => "The main function ends with `return`.",
        Reason::NoUnwindBlock => "The call was thought never to unwind.",
        Reason::UnwoundThread => "Nobody catches what was thrown.",
        Reason::NoPayload => "Nothing was thrown, or it was caught already.",
        Reason::AssumeFalse => "What was thought to hold doesn't.",
        Reason::SizeTooLarge => "A size that was computed below 0.",
        Reason::BadAlign => "A size in place of the alignment.",
        Reason::FreeAddress => "It was moved.",
        Reason::FreeKind => "A pointer to a local, a global or a function.",
        Reason::FreeSize => "The sizes of `allocate` and `deallocate` differ.",
        Reason::FreeAlign => "The alignments of `allocate` and `deallocate` differ.",
        Reason::UnknownThread =>
            "A wrong number; threads count from 0, the main one, in the order in which they are \
                spawned.",
        Reason::UnknownLock => "It wasn't created before; locks count from 0.",
        Reason::NotHolder => "It was given back before, or another thread has it.",
    }
}

// What to do.
fn next_of(it: Reason) -> &'static str
    ensures { result.now ≡ (said_of_reason it).next }
{
    match it {
        Reason::DataRace => "Put a lock around both, join the thread first, or make both atomic.",
        Reason::Unreachable => "Look at the switch or the call that leads here.",
        Reason::DeadLocal =>
            "Write `live x` before the first use. Arguments and the returned local need none.",
        Reason::Misaligned =>
            "Move by multiples of the size, or load through a type with a smaller alignment.",
        Reason::NoProvenance =>
            "Take the pointer from `addrof`, `global`, `allocate` or another pointer.",
        Reason::DeadAllocation => "Use it before, or let it live longer.",
        Reason::OutOfBounds =>
            "A pointer may stand right behind the last byte, but no byte is used there.",
        Reason::InvalidValue => "Store a value first; load with the type that was stored.",
        Reason::DanglingReference => "Use `raw` where a pointer may dangle.",
        Reason::Overflow => "Use `add`, which wraps, or `add_overflow`, which tells.",
        Reason::ZeroDivisor => "Switch on it first.",
        Reason::DivOverflow => "Look for both numbers first.",
        Reason::ShiftAmount => "Use `shl` or `shr`, which take the amount modulo the width.",
        Reason::OffsetOverflow => "`wrapping_offset` may go round, and the access is judged later.",
        Reason::IndexOutOfRange => "Compare with the count first.",
        Reason::InvalidDiscriminant => "Store a variant first.",
        Reason::TransmuteInvalid => "Look at the number first, or transmute to an integer.",
        Reason::NotAFunction => "Take the pointer from `fn NAME`.",
        Reason::SignatureMismatch =>
            "Compare with the head of the function, and with the types of its locals.",
        Reason::NoReturnBlock => "Give the call a block to go on with.",
        Reason::MainReturned => "End it with `exit`.",
        Reason::NoUnwindBlock => "Give the call a cleanup or a catch block.",
        Reason::UnwoundThread => "Catch it in a frame below, with a catch block and `stop`.",
        Reason::NoPayload => "Read it in the cleanup or catch block, before `stop`.",
        Reason::AssumeFalse => "Look at the values at this step.",
        Reason::SizeTooLarge => "Look at the computation.",
        Reason::BadAlign => "Size first, then alignment.",
        Reason::FreeAddress => "Keep the pointer that `allocate` gave.",
        Reason::FreeKind => "Leave it out.",
        Reason::FreeSize => "Give both the same.",
        Reason::FreeAlign => "Give both the same.",
        Reason::UnknownThread => "Keep what `spawn` gives.",
        Reason::UnknownLock => "Keep what `create_lock` gives.",
        Reason::NotHolder => "Acquire first, release once.",
    }
}

// Example.
fn example_of(it: Reason) -> &'static str
    ensures { result.now ≡ (said_of_reason it).example }
{
    match it {
        Reason::DataRace => "g = 1 in two threads, without a lock",
        Reason::Unreachable => "b0 regular: unreachable;",
        Reason::DeadLocal => "x = u8 1; without a live x before it",
        Reason::Misaligned => "load(deref(global g + 1, u16))",
        Reason::NoProvenance => "load(deref(raw 16, u8))",
        Reason::DeadAllocation =>
            "load(deref(load(p), u8)) after the deallocate of what p points to",
        Reason::OutOfBounds => "load(deref(global g + 8, u8)) where g has 8 bytes",
        Reason::InvalidValue => "live x; do print(load(x)) to b1;",
        Reason::DanglingReference => "q = transmute(ref 1 1, raw 16);",
        Reason::Overflow => "add_unchecked(i8 127, i8 1)",
        Reason::ZeroDivisor => "div(u8 1, u8 0)",
        Reason::DivOverflow => "div(i8 -128, i8 -1)",
        Reason::ShiftAmount => "shl_unchecked(u8 1, u8 8)",
        Reason::OffsetOverflow => "offset(raw 8, i64 -9)",
        Reason::IndexOutOfRange => "a[u64 3] where a is an array(3, u16)",
        Reason::InvalidDiscriminant => "live e; do print(disc(e)) to b1;",
        Reason::TransmuteInvalid => "transmute(bool, u8 2)",
        Reason::NotAFunction => "call transmute(fnptr, raw 16)() -> u to b1;",
        Reason::SignatureMismatch => "call fn f(u8 1) -> u to b1; where f takes nothing",
        Reason::NoReturnBlock => "call fn f() -> u; and f returns",
        Reason::MainReturned => "return; in main",
        Reason::NoUnwindBlock => "call fn f() -> u to b1; and f unwinds and resumes",
        Reason::UnwoundThread => "resume; in main, which unwound",
        Reason::NoPayload => "do payload() -> p to b1; in a regular block",
        Reason::AssumeFalse => "do assume(false) to b1;",
        Reason::SizeTooLarge => "do allocate(u64 9223372036854775808, u64 1) -> p to b1;",
        Reason::BadAlign => "do allocate(u64 8, u64 3) -> p to b1;",
        Reason::FreeAddress => "do deallocate(offset(load(p), i64 8), u64 16, u64 8) to b1;",
        Reason::FreeKind => "do deallocate(global g + 0, u64 8, u64 8) to b1;",
        Reason::FreeSize => "do deallocate(load(p), u64 8, u64 8) to b1; of 16 bytes",
        Reason::FreeAlign => "do deallocate(load(p), u64 16, u64 4) to b1; of an alignment of 8",
        Reason::UnknownThread => "do join(u32 1) to b1; in a program of one thread",
        Reason::UnknownLock => "do acquire(u32 0) to b1; before a lock is created",
        Reason::NotHolder => "do release(u32 0) to b1; of a lock that nobody has",
    }
}

/// What is said of one of the reasons of undefined behaviour.
pub(crate) fn said_of_reason(it: Reason) -> Said
    ensures { words_of result ≡ said_of_reason it }
{
    Said {
        what: what_of(it),
        cause: cause_of(it),
        next: next_of(it),
        example: example_of(it),
    }
}

/// The reason of a number, where there is one.
pub(crate) fn reason_of(code: u16) -> Option<Reason>
    ensures { result ≡ reason_of code }
{
    match code {
        100 => Some(Reason::DataRace),
        101 => Some(Reason::Unreachable),
        102 => Some(Reason::DeadLocal),
        103 => Some(Reason::Misaligned),
        104 => Some(Reason::NoProvenance),
        105 => Some(Reason::DeadAllocation),
        106 => Some(Reason::OutOfBounds),
        107 => Some(Reason::InvalidValue),
        108 => Some(Reason::DanglingReference),
        109 => Some(Reason::Overflow),
        110 => Some(Reason::ZeroDivisor),
        111 => Some(Reason::DivOverflow),
        112 => Some(Reason::ShiftAmount),
        113 => Some(Reason::OffsetOverflow),
        114 => Some(Reason::IndexOutOfRange),
        115 => Some(Reason::InvalidDiscriminant),
        116 => Some(Reason::TransmuteInvalid),
        117 => Some(Reason::NotAFunction),
        118 => Some(Reason::SignatureMismatch),
        119 => Some(Reason::NoReturnBlock),
        120 => Some(Reason::MainReturned),
        121 => Some(Reason::NoUnwindBlock),
        122 => Some(Reason::UnwoundThread),
        123 => Some(Reason::NoPayload),
        124 => Some(Reason::AssumeFalse),
        125 => Some(Reason::SizeTooLarge),
        126 => Some(Reason::BadAlign),
        127 => Some(Reason::FreeAddress),
        128 => Some(Reason::FreeKind),
        129 => Some(Reason::FreeSize),
        130 => Some(Reason::FreeAlign),
        131 => Some(Reason::UnknownThread),
        132 => Some(Reason::UnknownLock),
        133 => Some(Reason::NotHolder),
        _ => None,
    }
}
