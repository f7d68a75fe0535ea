//! What is told at a place of a file: the place, what a code says, the line, and a caret.
ghost use Rattle.std.specs.Prelude.{◌≡◌, ◌++◌, OnOk, codes, decimal};
ghost use Rattle.std.specs.Option.{option_map};
ghost use Rattle.mr_why.specs.Why.{entry_in};
ghost use Rattle.mr_refusals.specs.Heads.{bare_text, code_text, entry_text, lines_text, marked_text, place_text};
ghost use Rattle.mr_refusals.specs.Heads.{line_told, sentence_of};

use crate::OutOfMemory;
use crate::lines::{line_at, push_lines};
use mr_labels::push_number;
use mr_why::{Why, entry};

/// A file: its name, as it is told, and its bytes.
#[derive(Clone, Copy)]
pub struct Source<'a> {
    pub name: &'a str,
    pub text: &'a [u8],
}

/// A place in a text: a line and a column in bytes, counted from 1.
#[derive(Clone, Copy, Debug, PartialEq, Eq)]
pub(crate) struct Mark {
    pub(crate) line: u32,
    pub(crate) col: u32,
}

// Appends a code, its name and its sentence.
fn push_said(out: &mut Vec<u8>, code: u8, name: &str, what: &str) -> Result<(), OutOfMemory>
    ensures { OnOk result (out.new.items
        ≡ out.old.items ++ (decimal code ++ codes " " ++ name.now ++ codes ": " ++ what.now)) }
{
    push_number(out, u64::from(code))?;
    out.push(b' ')?;
    out.extend_from_slice(name.as_bytes())?;
    out.extend_from_slice(b": ")?;
    out.extend_from_slice(what.as_bytes())?;
    Ok(())
}

// The same of an entry, if there is one.
fn push_entry(out: &mut Vec<u8>, code: u8, found: Option<Why>) -> Result<(), OutOfMemory>
    ensures { OnOk result (out.new.items ≡ out.old.items ++ entry_text code (option_map entry_in found)) }
{
    match found {
        Some(why) => push_said(out, code, why.name, why.said.what),
        None => push_number(out, u64::from(code)),
    }
}

// Appends what a code says.
fn push_code(out: &mut Vec<u8>, code: u8) -> Result<(), OutOfMemory>
    ensures { OnOk result (out.new.items ≡ out.old.items ++ code_text code) }
{
    push_entry(out, code, entry(u16::from(code)))
}

/// What a code says, in a sentence.
pub(crate) fn sentence_of(code: u8) -> &'static str
    ensures { result.now ≡ sentence_of code }
{
    match entry(u16::from(code)) {
        Some(found) => found.said.what,
        None => "",
    }
}

// Appends a place of a file.
fn push_place(out: &mut Vec<u8>, file: &str, mark: Mark) -> Result<(), OutOfMemory>
    ensures { OnOk result (out.new.items ≡ out.old.items ++ place_text file.now mark.line mark.col) }
{
    out.extend_from_slice(file.as_bytes())?;
    out.push(b':')?;
    push_number(out, u64::from(mark.line))?;
    out.push(b':')?;
    push_number(out, u64::from(mark.col))
}

// Appends the line of a place, and the caret.
fn push_marked_line(out: &mut Vec<u8>, text: &[u8], mark: Mark) -> Result<(), OutOfMemory>
    ensures { OnOk result (out.new.items ≡ out.old.items ++ lines_text text.now mark.line mark.col) }
{
    push_lines(
        out,
        line_at(text, mark.line),
        mark.col.saturating_sub(1) as usize,
    )
}

/// Appends a fault at a place of a file.
pub(crate) fn push_fault(
    out: &mut Vec<u8>,
    source: Source<'_>,
    mark: Mark,
    code: u8,
) -> Result<(), OutOfMemory>
    ensures { OnOk result (out.new.items
        ≡ out.old.items ++ marked_text source.entry.name.now source.entry.text.now mark.line mark.col code) }
{
    push_place(out, source.name, mark)?;
    out.extend_from_slice(b": ")?;
    push_code(out, code)?;
    out.push(b'\n')?;
    push_marked_line(out, source.text, mark)
}

/// Appends a fault of a file that has no place in it.
pub(crate) fn push_bare(out: &mut Vec<u8>, file: &str, code: u8) -> Result<(), OutOfMemory>
    ensures { OnOk result (out.new.items ≡ out.old.items ++ bare_text file.now code) }
{
    out.extend_from_slice(file.as_bytes())?;
    out.extend_from_slice(b": ")?;
    push_code(out, code)?;
    out.push(b'\n')?;
    Ok(())
}

/// Appends a line of a file, with the caret under its first byte.
pub(crate) fn push_file_line(
    out: &mut Vec<u8>,
    source: Source<'_>,
    line: u32,
) -> Result<(), OutOfMemory>
    ensures { OnOk result (out.new.items
        ≡ out.old.items ++ line_told source.entry.name.now source.entry.text.now line) }
{
    let mark = Mark { line, col: 1 };
    push_place(out, source.name, mark)?;
    out.push(b'\n')?;
    push_marked_line(out, source.text, mark)
}
