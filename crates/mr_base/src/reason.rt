//! Why a step is undefined behaviour, and what a run came to.
ghost use Rattle.std.specs.Prelude.{◌≡◌};
ghost use Rattle.mr_base.specs.Reasons.{code_of, name_of};
ghost use Rattle.mr_base.specs.Stops.{speaks};

/// Why a step is undefined behaviour. (MiniRust, lang and mem.)
#[derive(Clone, Copy, Debug, PartialEq, Eq)]
pub enum Reason {
    DataRace,
    Unreachable,
    DeadLocal,
    Misaligned,
    NoProvenance,
    DeadAllocation,
    OutOfBounds,
    InvalidValue,
    DanglingReference,
    Overflow,
    ZeroDivisor,
    DivOverflow,
    ShiftAmount,
    OffsetOverflow,
    IndexOutOfRange,
    InvalidDiscriminant,
    TransmuteInvalid,
    NotAFunction,
    SignatureMismatch,
    NoReturnBlock,
    MainReturned,
    NoUnwindBlock,
    UnwoundThread,
    NoPayload,
    AssumeFalse,
    SizeTooLarge,
    BadAlign,
    FreeAddress,
    FreeKind,
    FreeSize,
    FreeAlign,
    UnknownThread,
    UnknownLock,
    NotHolder,
}

/// What a run came to.
#[derive(Clone, Copy, Debug, PartialEq, Eq)]
pub enum Verdict {
    /// The entries are used up, and none of the others holds.
    Running,
    /// An exit while no heap allocation is live.
    Exit,
    /// An exit while a heap allocation is live.
    Leak,
    Abort,
    /// No thread is enabled.
    Deadlock,
    Undefined(Reason),
}

impl Reason {
    /// The number of the reason, from 100 on.
    pub fn code(self) -> u16
        ensures { result ≡ code_of self }
    {
        match self {
            Reason::DataRace => 100,
            Reason::Unreachable => 101,
            Reason::DeadLocal => 102,
            Reason::Misaligned => 103,
            Reason::NoProvenance => 104,
            Reason::DeadAllocation => 105,
            Reason::OutOfBounds => 106,
            Reason::InvalidValue => 107,
            Reason::DanglingReference => 108,
            Reason::Overflow => 109,
            Reason::ZeroDivisor => 110,
            Reason::DivOverflow => 111,
            Reason::ShiftAmount => 112,
            Reason::OffsetOverflow => 113,
            Reason::IndexOutOfRange => 114,
            Reason::InvalidDiscriminant => 115,
            Reason::TransmuteInvalid => 116,
            Reason::NotAFunction => 117,
            Reason::SignatureMismatch => 118,
            Reason::NoReturnBlock => 119,
            Reason::MainReturned => 120,
            Reason::NoUnwindBlock => 121,
            Reason::UnwoundThread => 122,
            Reason::NoPayload => 123,
            Reason::AssumeFalse => 124,
            Reason::SizeTooLarge => 125,
            Reason::BadAlign => 126,
            Reason::FreeAddress => 127,
            Reason::FreeKind => 128,
            Reason::FreeSize => 129,
            Reason::FreeAlign => 130,
            Reason::UnknownThread => 131,
            Reason::UnknownLock => 132,
            Reason::NotHolder => 133,
        }
    }

    /// Whether the reason speaks of bytes: memory gives it, or says of bytes that they mean no value.
    pub fn speaks(self) -> bool
        ensures { result ≡ speaks self }
    {
        match self {
            Reason::Misaligned
            | Reason::NoProvenance
            | Reason::DeadAllocation
            | Reason::OutOfBounds
            | Reason::InvalidValue
            | Reason::DanglingReference
            | Reason::FreeAddress
            | Reason::FreeKind
            | Reason::FreeSize
            | Reason::FreeAlign => true,
            _ => false,
        }
    }

    /// The name of the reason, as it is printed behind its number.
    pub fn name(self) -> &'static str
        ensures { result.now ≡ name_of self }
    {
        match self {
            Reason::DataRace => "DataRace",
            Reason::Unreachable => "Unreachable",
            Reason::DeadLocal => "DeadLocal",
            Reason::Misaligned => "Misaligned",
            Reason::NoProvenance => "NoProvenance",
            Reason::DeadAllocation => "DeadAllocation",
            Reason::OutOfBounds => "OutOfBounds",
            Reason::InvalidValue => "InvalidValue",
            Reason::DanglingReference => "DanglingReference",
            Reason::Overflow => "Overflow",
            Reason::ZeroDivisor => "ZeroDivisor",
            Reason::DivOverflow => "DivOverflow",
            Reason::ShiftAmount => "ShiftAmount",
            Reason::OffsetOverflow => "OffsetOverflow",
            Reason::IndexOutOfRange => "IndexOutOfRange",
            Reason::InvalidDiscriminant => "InvalidDiscriminant",
            Reason::TransmuteInvalid => "TransmuteInvalid",
            Reason::NotAFunction => "NotAFunction",
            Reason::SignatureMismatch => "SignatureMismatch",
            Reason::NoReturnBlock => "NoReturnBlock",
            Reason::MainReturned => "MainReturned",
            Reason::NoUnwindBlock => "NoUnwindBlock",
            Reason::UnwoundThread => "UnwoundThread",
            Reason::NoPayload => "NoPayload",
            Reason::AssumeFalse => "AssumeFalse",
            Reason::SizeTooLarge => "SizeTooLarge",
            Reason::BadAlign => "BadAlign",
            Reason::FreeAddress => "FreeAddress",
            Reason::FreeKind => "FreeKind",
            Reason::FreeSize => "FreeSize",
            Reason::FreeAlign => "FreeAlign",
            Reason::UnknownThread => "UnknownThread",
            Reason::UnknownLock => "UnknownLock",
            Reason::NotHolder => "NotHolder",
        }
    }
}

/// Reasons with one code are one reason.
pub fn codes_differ()
    ensures { (r s : Reason) → code_of r ≡ code_of s → r ≡ s }
{}
