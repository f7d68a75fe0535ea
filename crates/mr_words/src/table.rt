//! Words of the language, and what they stand for.
ghost use Rattle.std.specs.Prelude.{◌≡◌, bytes_eq, map, is_some};
ghost use Rattle.std.specs.List.{list_all, list_any};
ghost use Rattle.mr_ast.specs.Words.{begins_name, binary_words, edition_words, first_passes, int_words, intrinsic_words, is_exposed, is_in_name, is_name, kind_words, looked_up, reserved, stmt_words, term_words, tree_words, type_words, unary_words, value_words};
ghost use Rattle.mr_ast.specs.TypeGrammar.{type_word_of};
ghost use Rattle.mr_ast.specs.ValueGrammar.{value_word_of};
ghost use Rattle.mr_ast.specs.ProgramGrammar.{item_word_of};

use crate::number::number_of;
use mr_ast::{
    BinaryOp, BlockKind, IntType, Intrinsic, ItemWord, StmtWord, TermWord, TreeWord, TypeWord,
    UnaryOp, ValueWord,
};

const EDITIONS: [(&[u8], u8); 2] = [(b"1", 1), (b"2", 2)];

const INTS: [(&[u8], IntType); 10] = [
    (b"u8", IntType::U8),
    (b"u16", IntType::U16),
    (b"u32", IntType::U32),
    (b"u64", IntType::U64),
    (b"u128", IntType::U128),
    (b"i8", IntType::I8),
    (b"i16", IntType::I16),
    (b"i32", IntType::I32),
    (b"i64", IntType::I64),
    (b"i128", IntType::I128),
];

const TYPES: [(&[u8], TypeWord); 9] = [
    (b"bool", TypeWord::Bool),
    (b"raw", TypeWord::Raw),
    (b"fnptr", TypeWord::FnPtr),
    (b"unit", TypeWord::Unit),
    (b"ref", TypeWord::Ref),
    (b"tuple", TypeWord::Tuple),
    (b"array", TypeWord::Array),
    (b"union", TypeWord::Union),
    (b"enum", TypeWord::Enum),
];

const TREES: [(&[u8], TreeWord); 3] = [
    (b"known", TreeWord::Known),
    (b"invalid", TreeWord::Invalid),
    (b"branch", TreeWord::Branch),
];

const UNARY: [(&[u8], UnaryOp); 2] = [(b"neg", UnaryOp::Neg), (b"not", UnaryOp::Not)];

const BINARY: [(&[u8], BinaryOp); 26] = [
    (b"add", BinaryOp::Add),
    (b"sub", BinaryOp::Sub),
    (b"mul", BinaryOp::Mul),
    (b"div", BinaryOp::Div),
    (b"rem", BinaryOp::Rem),
    (b"and", BinaryOp::And),
    (b"or", BinaryOp::Or),
    (b"xor", BinaryOp::Xor),
    (b"add_unchecked", BinaryOp::AddUnchecked),
    (b"sub_unchecked", BinaryOp::SubUnchecked),
    (b"mul_unchecked", BinaryOp::MulUnchecked),
    (b"add_overflow", BinaryOp::AddOverflow),
    (b"sub_overflow", BinaryOp::SubOverflow),
    (b"mul_overflow", BinaryOp::MulOverflow),
    (b"shl", BinaryOp::Shl),
    (b"shr", BinaryOp::Shr),
    (b"shl_unchecked", BinaryOp::ShlUnchecked),
    (b"shr_unchecked", BinaryOp::ShrUnchecked),
    (b"eq", BinaryOp::Eq),
    (b"ne", BinaryOp::Ne),
    (b"lt", BinaryOp::Lt),
    (b"le", BinaryOp::Le),
    (b"gt", BinaryOp::Gt),
    (b"ge", BinaryOp::Ge),
    (b"offset", BinaryOp::Offset),
    (b"wrapping_offset", BinaryOp::WrappingOffset),
];

const VALUES: [(&[u8], ValueWord); 13] = [
    (b"true", ValueWord::True),
    (b"false", ValueWord::False),
    (b"raw", ValueWord::Raw),
    (b"fn", ValueWord::Fn),
    (b"global", ValueWord::Global),
    (b"tuple", ValueWord::Tuple),
    (b"union", ValueWord::Union),
    (b"variant", ValueWord::Variant),
    (b"load", ValueWord::Load),
    (b"disc", ValueWord::Disc),
    (b"addrof", ValueWord::AddrOf),
    (b"cast", ValueWord::Cast),
    (b"transmute", ValueWord::Transmute),
];

const STMTS: [(&[u8], StmtWord); 6] = [
    (b"live", StmtWord::Live),
    (b"dead", StmtWord::Dead),
    (b"mention", StmtWord::Mention),
    (b"disc", StmtWord::Disc),
    (b"deinit", StmtWord::Deinit),
    (b"validate", StmtWord::Validate),
];

const TERMS: [(&[u8], TermWord); 11] = [
    (b"goto", TermWord::Goto),
    (b"switch", TermWord::Switch),
    (b"unreachable", TermWord::Unreachable),
    (b"return", TermWord::Return),
    (b"exit", TermWord::Exit),
    (b"abort", TermWord::Abort),
    (b"resume", TermWord::Resume),
    (b"stop", TermWord::Stop),
    (b"unwind", TermWord::Unwind),
    (b"call", TermWord::Call),
    (b"do", TermWord::Do),
];

const KINDS: [(&[u8], BlockKind); 4] = [
    (b"regular", BlockKind::Regular),
    (b"cleanup", BlockKind::Cleanup),
    (b"catch", BlockKind::Catch),
    (b"terminate", BlockKind::Terminate),
];

const INTRINSICS: [(&[u8], Intrinsic); 18] = [
    (b"assume", Intrinsic::Assume),
    (b"print", Intrinsic::Print),
    (b"allocate", Intrinsic::Allocate),
    (b"deallocate", Intrinsic::Deallocate),
    (b"spawn", Intrinsic::Spawn),
    (b"join", Intrinsic::Join),
    (b"create_lock", Intrinsic::CreateLock),
    (b"acquire", Intrinsic::Acquire),
    (b"release", Intrinsic::Release),
    (b"atomic_store", Intrinsic::AtomicStore),
    (b"atomic_load", Intrinsic::AtomicLoad),
    (b"compare_exchange", Intrinsic::CompareExchange),
    (b"fetch_add", Intrinsic::FetchAdd),
    (b"fetch_sub", Intrinsic::FetchSub),
    (b"fetch_and", Intrinsic::FetchAnd),
    (b"fetch_or", Intrinsic::FetchOr),
    (b"fetch_xor", Intrinsic::FetchXor),
    (b"payload", Intrinsic::Payload),
];

fn is_same(text: &[u8], word: &[u8]) -> bool
    ensures { result ≡ bytes_eq text.now word.now }
{
    text == word
}

// What the word stands for in a table.
fn looked_up<T: Copy>(table: &[(&[u8], T)], text: &[u8]) -> Option<T>
    ensures { result ≡ looked_up (map (λ e. (e.0.now, e.1)) table.now) text.now }
{
    for entry in table {
        if text == entry.0 {
            return Some(entry.1);
        }
    }
    None
}

/// The edition of the language that the word names.
pub fn edition_of(text: &[u8]) -> Option<u8>
    ensures { result ≡ looked_up edition_words text.now }
{
    looked_up(&EDITIONS, text)
}

pub fn int_of(text: &[u8]) -> Option<IntType>
    ensures { result ≡ looked_up int_words text.now }
{
    looked_up(&INTS, text)
}

/// The word with which a type begins.
pub fn type_word_of(text: &[u8]) -> Option<TypeWord>
    ensures { result ≡ type_word_of text.now }
{
    match int_of(text) {
        Some(int) => Some(TypeWord::Int(int)),
        None => looked_up(&TYPES, text),
    }
}

pub fn tree_word_of(text: &[u8]) -> Option<TreeWord>
    ensures { result ≡ looked_up tree_words text.now }
{
    looked_up(&TREES, text)
}

fn unary_of(text: &[u8]) -> Option<UnaryOp>
    ensures { result ≡ looked_up unary_words text.now }
{
    looked_up(&UNARY, text)
}

fn binary_of(text: &[u8]) -> Option<BinaryOp>
    ensures { result ≡ looked_up binary_words text.now }
{
    looked_up(&BINARY, text)
}

fn plain_value_of(text: &[u8]) -> Option<ValueWord>
    ensures { result ≡ looked_up value_words text.now }
{
    looked_up(&VALUES, text)
}

/// The word with which a value begins.
pub fn value_word_of(text: &[u8]) -> Option<ValueWord>
    ensures { result ≡ value_word_of text.now }
{
    if let Some(int) = int_of(text) {
        return Some(ValueWord::Int(int));
    }
    if let Some(op) = unary_of(text) {
        return Some(ValueWord::Unary(op));
    }
    if let Some(op) = binary_of(text) {
        return Some(ValueWord::Binary(op));
    }
    plain_value_of(text)
}

pub fn stmt_word_of(text: &[u8]) -> Option<StmtWord>
    ensures { result ≡ looked_up stmt_words text.now }
{
    looked_up(&STMTS, text)
}

pub fn term_word_of(text: &[u8]) -> Option<TermWord>
    ensures { result ≡ looked_up term_words text.now }
{
    looked_up(&TERMS, text)
}

pub fn kind_of(text: &[u8]) -> Option<BlockKind>
    ensures { result ≡ looked_up kind_words text.now }
{
    looked_up(&KINDS, text)
}

pub fn intrinsic_of(text: &[u8]) -> Option<Intrinsic>
    ensures { result ≡ looked_up intrinsic_words text.now }
{
    looked_up(&INTRINSICS, text)
}

/// The word with which an item of a global begins.
pub fn item_word_of(text: &[u8]) -> Option<ItemWord>
    ensures { result ≡ item_word_of text.now }
{
    match number_of(text) {
        Some(value) if value <= 255 => Some(ItemWord::Byte(value as u8)),
        Some(_) => None,
        None if is_same(text, b"?") => Some(ItemWord::Uninit),
        None if is_same(text, b"&") => Some(ItemWord::Reloc),
        None => None,
    }
}

/// Whether the word is a cast between pointers and integers.
pub fn is_exposed(text: &[u8]) -> bool
    ensures { result ≡ is_exposed text.now }
{
    is_same(text, b"expose_provenance") || is_same(text, b"with_exposed_provenance")
}

fn begins_name(byte: u8) -> bool
    ensures { result ≡ begins_name byte }
{
    byte.is_ascii_alphabetic() || byte == b'_'
}

fn is_in_name(byte: u8) -> bool
    ensures { result ≡ is_in_name byte }
{
    begins_name(byte) || byte.is_ascii_digit()
}

fn begins_with_letter(text: &[u8]) -> bool
    ensures { result ≡ first_passes begins_name text.now }
{
    match text {
        [first, ..] => begins_name(*first),
        [] => false,
    }
}

fn has_word_bytes(text: &[u8]) -> bool
    ensures { result ≡ list_all is_in_name text.now }
{
    text.iter().all(|byte| is_in_name(*byte))
}

// Whether the word begins a statement or a terminator, or is one of the two others that no name may be.
#[tactic(auto, using(crate::proofs::TableLaws::is_reserved))]
fn is_reserved(text: &[u8]) -> bool
    ensures { result ≡ list_any (bytes_eq text.now) reserved }
{
    stmt_word_of(text).is_some()
        || term_word_of(text).is_some()
        || is_same(text, b"deref")
        || is_same(text, b"_")
}

/// Whether the text is a word that may be a name.
#[tactic(auto, unfolding(mr_ast::specs::Words::is_name))]
pub fn is_name(text: &[u8]) -> bool
    ensures { result ≡ is_name text.now }
{
    begins_with_letter(text) && has_word_bytes(text) && !is_reserved(text)
}
