//! The entry of a code, and how it is written.
ghost use Rattle.std.specs.Prelude.{◌≡◌, ◌++◌, IfOk, OnOk};
ghost use Rattle.std.specs.Option.{option_map};
ghost use Rattle.mr_why.specs.Why.{code_word, entry_at, entry_in, entry_of, entry_text, named_line, words_text};
ghost use Rattle.mr_why.specs.Words.{words_of};

use crate::OutOfMemory;
use crate::said::{Said, Why};
use crate::subject::{Subject, name_by, said_of, subject_of};
use itoa::Buffer;
use std::alloc::Global;

// The entry of a rule or a reason.
fn entry_at(code: u16, subject: Subject) -> Why
    ensures { entry_in result ≡ entry_at code subject }
{
    Why {
        code,
        name: name_by(subject),
        said: said_of(subject),
    }
}

/// The entry of a code, if there is one.
pub fn entry(code: u16) -> Option<Why>
    ensures { option_map entry_in result ≡ entry_of code }
{
    match subject_of(code) {
        Some(subject) => Some(entry_at(code, subject)),
        None => None,
    }
}

// Appends a line of a word and a text.
fn push_line(out: &mut Vec<u8>, word: &str, text: &str) -> Result<(), OutOfMemory>
    ensures { OnOk result (out.new.items ≡ out.old.items ++ named_line word.now text.now) }
{
    out.extend_from_slice(word.as_bytes())?;
    out.extend_from_slice(text.as_bytes())?;
    out.push(b'\n')?;
    Ok(())
}

// Appends a code and a blank.
fn push_code(out: &mut Vec<u8>, code: u16) -> Result<(), OutOfMemory>
    ensures { OnOk result (out.new.items ≡ out.old.items ++ code_word code) }
{
    let mut buffer = Buffer::new();
    out.extend_from_slice(buffer.format(u64::from(code)).as_bytes())?;
    out.push(b' ')?;
    Ok(())
}

// Appends the lines of what is said.
fn push_words(out: &mut Vec<u8>, said: Said) -> Result<(), OutOfMemory>
    ensures { OnOk result (out.new.items ≡ out.old.items ++ words_text (words_of said)) }
{
    push_line(out, "", said.what)?;
    push_line(out, "usual cause: ", said.cause)?;
    push_line(out, "what to do: ", said.next)?;
    push_line(out, "example: ", said.example)
}

/// What is written of an entry. An `Err` is for want of memory.
pub fn text(alloc: Global, why: &Why) -> Result<Vec<u8>, OutOfMemory>
    ensures { IfOk result (λ text. text.items ≡ entry_text (entry_in why.now)) }
{
    let mut out = Vec::new(alloc);
    push_code(&mut out, why.code)?;
    push_line(&mut out, "", why.name)?;
    push_words(&mut out, why.said)?;
    Ok(out)
}
