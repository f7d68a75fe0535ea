//! Words of a line, and the spaces and commas between them.
ghost use Rattle.std.specs.Prelude.{◌≡◌, ◌∷◌, [], OnOk, codes};
ghost use Rattle.mr_ast.specs.CanonTypes.{int_word, num_words};
ghost use Rattle.mr_print.specs.Appends.{with_word, with_words, with_last, comma_at};

use crate::OutOfMemory;
use itoa::{Buffer, Integer};
use mr_ast::{IntType, Num};

// Writes a word, and the space in front of the next.
#[tactic(auto, unfolding(crate::specs::Appends::with_word), using(std::proofs::Common::append_assoc))]
pub(crate) fn word(word: &str, text: &mut Vec<u8>) -> Result<(), OutOfMemory>
    ensures { OnOk result (text.new.items ≡ with_word text.old.items word.now) }
{
    text.extend_from_slice(word.as_bytes())?;
    text.push(b' ')?;
    Ok(())
}

// Writes the last word of a line, and LF.
#[tactic(auto, unfolding(crate::specs::Appends::with_last), using(std::proofs::Common::append_assoc))]
pub(crate) fn last_word(word: &str, text: &mut Vec<u8>) -> Result<(), OutOfMemory>
    ensures { OnOk result (text.new.items ≡ with_last text.old.items word.now) }
{
    text.extend_from_slice(word.as_bytes())?;
    text.push(b'\n')?;
    Ok(())
}

// Writes a word, and an opening bracket.
#[tactic(auto, using(crate::proofs::AppendLaws::word_laws))]
pub(crate) fn opened(head: &str, text: &mut Vec<u8>) -> Result<(), OutOfMemory>
    ensures { OnOk result (text.new.items ≡ with_words text.old.items (head.now ∷ codes "(" ∷ [])) }
{
    word(head, text)?;
    word("(", text)
}

// Writes a number in decimal.
pub(crate) fn number<I: Integer>(n: I, text: &mut Vec<u8>) -> Result<(), OutOfMemory>
    ensures { OnOk result (text.new.items ≡ with_word text.old.items (I.text n)) }
{
    let mut buffer = Buffer::new();
    word(buffer.format(n), text)
}

// Writes the comma in front of a row of a list, unless it is the first.
#[tactic(auto, using(crate::proofs::AppendLaws::word_laws))]
pub(crate) fn comma(row: usize, text: &mut Vec<u8>) -> Result<(), OutOfMemory>
    ensures { OnOk result (text.new.items ≡ with_words text.old.items (comma_at row)) }
{
    if row == 0 {
        return Ok(());
    }
    word(",", text)
}

// Writes a number with its sign, which is a word of its own.
#[tactic(auto, using(crate::proofs::AppendLaws::word_laws))]
pub(crate) fn signed(n: Num, text: &mut Vec<u8>) -> Result<(), OutOfMemory>
    ensures { OnOk result (text.new.items ≡ with_words text.old.items (num_words n)) }
{
    if n.neg {
        word("-", text)?;
    }
    number(n.mag, text)
}

// Writes the word of an integer type.
pub(crate) fn int_type(int: IntType, text: &mut Vec<u8>) -> Result<(), OutOfMemory>
    ensures { OnOk result (text.new.items ≡ with_word text.old.items (int_word int)) }
{
    word(int_word(int), text)
}

fn int_word(int: IntType) -> &'static str
    ensures { result.now ≡ int_word int }
{
    match int {
        IntType::U8 => "u8",
        IntType::U16 => "u16",
        IntType::U32 => "u32",
        IntType::U64 => "u64",
        IntType::U128 => "u128",
        IntType::I8 => "i8",
        IntType::I16 => "i16",
        IntType::I32 => "i32",
        IntType::I64 => "i64",
        IntType::I128 => "i128",
    }
}
