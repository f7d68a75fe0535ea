//! The rules of a well-formed program.
ghost use Rattle.std.specs.Prelude.{◌≡◌, IfSome, Some};
ghost use Rattle.mr_ast.specs.FormRules.{code_of, name_of, rule_of};

/// A rule of a well-formed program. Those up to `UnionChunk` are on types.
#[derive(Clone, Copy, Debug, PartialEq, Eq)]
pub enum Rule {
    /// A size or a count of elements passes 2^20, or what a reference points to has 2^63 bytes or more.
    TypeSize,
    /// An alignment is no power of two of at most 4,096.
    TypeAlign,
    /// A field or a chunk passes the size.
    FieldOutside,
    /// Two fields of a tuple overlap.
    FieldOverlap,
    /// A size is no multiple of its alignment.
    SizeMultiple,
    /// A variant of an enum has a wrong size, alignment or number.
    EnumVariant,
    /// A tag of a variant passes the size, does not fit, or overlaps.
    EnumTag,
    /// In the tree of an enum a leaf, a branch or a case is wrong.
    EnumTree,
    /// The chunks of a union are not in order, overlap, or leave out a used byte of a field.
    UnionChunk,
    Arguments,
    FirstBlock,
    BlockKind,
    Place,
    Operand,
    ConstRange,
    Assign,
    Discriminant,
    LiveLocal,
    Switch,
    Callee,
    Intrinsic,
    Payload,
    GlobalRef,
    GlobalForm,
    MainForm,
    Aggregate,
    Cast,
}

impl Rule {
    /// The number of the rule, from 20 on.
    pub fn code(self) -> u8
        ensures { result ≡ code_of self }
    {
        match self {
            Rule::TypeSize => 20,
            Rule::TypeAlign => 21,
            Rule::FieldOutside => 22,
            Rule::FieldOverlap => 23,
            Rule::SizeMultiple => 24,
            Rule::EnumVariant => 25,
            Rule::EnumTag => 26,
            Rule::EnumTree => 27,
            Rule::UnionChunk => 28,
            Rule::Arguments => 30,
            Rule::FirstBlock => 31,
            Rule::BlockKind => 32,
            Rule::Place => 33,
            Rule::Operand => 34,
            Rule::ConstRange => 35,
            Rule::Assign => 36,
            Rule::Discriminant => 37,
            Rule::LiveLocal => 38,
            Rule::Switch => 39,
            Rule::Callee => 40,
            Rule::Intrinsic => 41,
            Rule::Payload => 42,
            Rule::GlobalRef => 43,
            Rule::GlobalForm => 44,
            Rule::MainForm => 45,
            Rule::Aggregate => 46,
            Rule::Cast => 47,
        }
    }

    /// The name of the rule, as it is printed behind its number.
    pub fn name(self) -> &'static str
        ensures { result.now ≡ name_of self }
    {
        match self {
            Rule::TypeSize => "TypeSize",
            Rule::TypeAlign => "TypeAlign",
            Rule::FieldOutside => "FieldOutside",
            Rule::FieldOverlap => "FieldOverlap",
            Rule::SizeMultiple => "SizeMultiple",
            Rule::EnumVariant => "EnumVariant",
            Rule::EnumTag => "EnumTag",
            Rule::EnumTree => "EnumTree",
            Rule::UnionChunk => "UnionChunk",
            Rule::Arguments => "Arguments",
            Rule::FirstBlock => "FirstBlock",
            Rule::BlockKind => "BlockKind",
            Rule::Place => "Place",
            Rule::Operand => "Operand",
            Rule::ConstRange => "ConstRange",
            Rule::Assign => "Assign",
            Rule::Discriminant => "Discriminant",
            Rule::LiveLocal => "LiveLocal",
            Rule::Switch => "Switch",
            Rule::Callee => "Callee",
            Rule::Intrinsic => "Intrinsic",
            Rule::Payload => "Payload",
            Rule::GlobalRef => "GlobalRef",
            Rule::GlobalForm => "GlobalForm",
            Rule::MainForm => "MainForm",
            Rule::Aggregate => "Aggregate",
            Rule::Cast => "Cast",
        }
    }

    /// The rule of a number.
    pub fn of_code(code: u8) -> Option<Rule>
        ensures some { IfSome result (λ rule. code_of rule ≡ code) }
        ensures only { (rule : Rule) → code_of rule ≡ code → result ≡ Some rule }
        ensures is { result ≡ rule_of code }
    {
        match code {
            20 => Some(Rule::TypeSize),
            21 => Some(Rule::TypeAlign),
            22 => Some(Rule::FieldOutside),
            23 => Some(Rule::FieldOverlap),
            24 => Some(Rule::SizeMultiple),
            25 => Some(Rule::EnumVariant),
            26 => Some(Rule::EnumTag),
            27 => Some(Rule::EnumTree),
            28 => Some(Rule::UnionChunk),
            30 => Some(Rule::Arguments),
            31 => Some(Rule::FirstBlock),
            32 => Some(Rule::BlockKind),
            33 => Some(Rule::Place),
            34 => Some(Rule::Operand),
            35 => Some(Rule::ConstRange),
            36 => Some(Rule::Assign),
            37 => Some(Rule::Discriminant),
            38 => Some(Rule::LiveLocal),
            39 => Some(Rule::Switch),
            40 => Some(Rule::Callee),
            41 => Some(Rule::Intrinsic),
            42 => Some(Rule::Payload),
            43 => Some(Rule::GlobalRef),
            44 => Some(Rule::GlobalForm),
            45 => Some(Rule::MainForm),
            46 => Some(Rule::Aggregate),
            47 => Some(Rule::Cast),
            _ => None,
        }
    }
}

/// Rules with one code are one rule.
pub fn rule_codes_differ()
    ensures { (r s : Rule) → code_of r ≡ code_of s → r ≡ s }
{}
