//! The rules of texts, each with its code and its name.
ghost use Rattle.std.specs.Prelude.{◌≡◌, IfSome, Some};
ghost use Rattle.mr_lex.specs.Rules.{code_of, name_of, rule_of};
ghost use Rattle.mr_lex.specs.declared.rule.TextRule.{TextRule as Rule};

use crate::{BAD_BYTE, BAD_NUMBER, LONG_TEXT};

/// Which rule a text breaks: one of its tokens, of the grammar, or of its names.
#[derive(Clone, Copy, Debug, PartialEq, Eq)]
pub enum TextRule {
    /// A byte begins nothing that a text may hold.
    BadByte,
    /// A number has a zero in front of other digits, or is too large where it stands.
    BadNumber,
    /// The text has more than `TEXT_LIMIT` bytes.
    LongText,
    /// No text can go on with this token, or end here.
    Unexpected,
    /// A name is used that its space doesn't hold.
    UnknownName,
    /// A name is defined a second time in its space.
    DoubleName,
    /// A bracket or a postfix operator is one too many.
    TooDeep,
    /// A function, global, local, block or statement is one too many.
    TooMany,
    /// A cast between pointers and integers, which the language does not have.
    Exposed,
}

impl TextRule {
    /// The number of the rule, from 1 on.
    pub fn code(self) -> u8
        ensures { result ≡ code_of self }
    {
        match self {
            TextRule::BadByte => BAD_BYTE,
            TextRule::BadNumber => BAD_NUMBER,
            TextRule::LongText => LONG_TEXT,
            TextRule::Unexpected => 4,
            TextRule::UnknownName => 5,
            TextRule::DoubleName => 6,
            TextRule::TooDeep => 7,
            TextRule::TooMany => 8,
            TextRule::Exposed => 9,
        }
    }

    /// The name of the rule, as it is printed behind its number.
    pub fn name(self) -> &'static str
        ensures { result.now ≡ name_of self }
    {
        match self {
            TextRule::BadByte => "BadByte",
            TextRule::BadNumber => "BadNumber",
            TextRule::LongText => "LongText",
            TextRule::Unexpected => "Unexpected",
            TextRule::UnknownName => "UnknownName",
            TextRule::DoubleName => "DoubleName",
            TextRule::TooDeep => "TooDeep",
            TextRule::TooMany => "TooMany",
            TextRule::Exposed => "Exposed",
        }
    }

    /// The rule of a number.
    pub fn of_code(code: u8) -> Option<TextRule>
        ensures some { IfSome result (λ rule. code_of rule ≡ code) }
        ensures only { (rule : Rule) → code_of rule ≡ code → result ≡ Some rule }
        ensures is { result ≡ rule_of code }
    {
        match code {
            BAD_BYTE => Some(TextRule::BadByte),
            BAD_NUMBER => Some(TextRule::BadNumber),
            LONG_TEXT => Some(TextRule::LongText),
            4 => Some(TextRule::Unexpected),
            5 => Some(TextRule::UnknownName),
            6 => Some(TextRule::DoubleName),
            7 => Some(TextRule::TooDeep),
            8 => Some(TextRule::TooMany),
            9 => Some(TextRule::Exposed),
            _ => None,
        }
    }
}

/// A law, and no code: rules with one code are one rule.
pub fn codes_differ()
    ensures { (r s : Rule) → code_of r ≡ code_of s → r ≡ s }
{}
