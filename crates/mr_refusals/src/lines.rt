//! A line of a text, as it is shown, and the caret below it.
ghost use Rattle.std.specs.Prelude.{◌≡◌, ◌++◌, ◌-◌, ◌==◌, ◌≤◌, OnOk, drop, if◌then◌else◌, length, map, replicate, take};
ghost use Rattle.std.specs.List.{prefix_len};
ghost use Rattle.mr_lex.specs.Bytes.{is_inline};
ghost use Rattle.mr_refusals.specs.Lines.{behind_feeds, cut_from, line_at, shown_byte, shown_lines};

use crate::OutOfMemory;

// So many bytes of a line are shown at most.
const WIDTH: usize = 120;

// How many of these line feeds are still to come behind a byte.
fn left_behind(byte: u8, left: usize) -> usize
    ensures { result ≡ (if byte == 10 then left - 1 else left) }
{
    if byte == b'\n' {
        left.saturating_sub(1)
    } else {
        left
    }
}

// Where what stands behind so many line feeds begins: at the end where there are fewer.
fn start_behind(text: &[u8], count: usize) -> usize
    ensures within { result ≤ length text.now }
    ensures behind { drop result text.now ≡ behind_feeds count text.now }
{
    let mut left = count;
    for at in 0..text.len() {
        if left == 0 {
            return at;
        }
        left = left_behind(text[at], left);
    }
    text.len()
}

// How many bytes come before the first line feed, or the end.
fn line_length(bytes: &[u8]) -> usize
    ensures { result ≡ prefix_len is_inline bytes.now }
{
    bytes.iter().take_while(|byte| **byte != b'\n').count()
}

// The bytes up to the first line feed, or the end.
fn first_line(bytes: &[u8]) -> &[u8]
    ensures { result.now ≡ take (prefix_len is_inline bytes.now) bytes.now }
{
    let length = line_length(bytes);
    &bytes[..length]
}

/// The line of a number, counted from 1, without its end.
pub(crate) fn line_at(text: &[u8], number: u32) -> &[u8]
    ensures { result.now ≡ line_at text.now number }
{
    let start = start_behind(text, number.saturating_sub(1) as usize);
    first_line(&text[start..])
}

// A byte as it is shown.
fn shown_byte(byte: u8) -> u8
    ensures { result ≡ shown_byte byte }
{
    if byte == b'\t' {
        b' '
    } else if byte >= b' ' && byte <= b'~' {
        byte
    } else {
        b'?'
    }
}

// Where the shown part of a line begins, when so many of its bytes stand in front of the place.
fn cut_from(before: usize) -> usize
    ensures cut { result ≡ cut_from before }
    ensures least { result ≤ before }
{
    if before < 90 { 0 } else { before - 60 }
}

/// The first bytes of a text.
pub(crate) fn front(text: &[u8], count: usize) -> &[u8]
    ensures { result.now ≡ take count text.now }
{
    if count < text.len() {
        &text[..count]
    } else {
        text
    }
}

// As many bytes as are shown at most, from one on.
fn part_from(line: &[u8], from: usize) -> &[u8]
    ensures { result.now ≡ take 120 (drop from line.now) }
{
    if from >= line.len() {
        return &line[line.len()..];
    }
    front(&line[from..], WIDTH)
}

// Appends bytes as they are shown.
fn push_shown(out: &mut Vec<u8>, bytes: &[u8]) -> Result<(), OutOfMemory>
    ensures { OnOk result (out.new.items ≡ out.old.items ++ map shown_byte bytes.now) }
{
    for byte in bytes {
        out.push(shown_byte(*byte))?;
    }
    Ok(())
}

// Appends so many blanks.
fn push_blanks(out: &mut Vec<u8>, count: usize) -> Result<(), OutOfMemory>
    ensures { OnOk result (out.new.items ≡ out.old.items ++ replicate count 32) }
{
    for _turn in 0..count {
        out.push(b' ')?;
    }
    Ok(())
}

/// Appends a line as it is shown, and below it a caret under the byte in front of which so many stand.
pub(crate) fn push_lines(out: &mut Vec<u8>, line: &[u8], before: usize) -> Result<(), OutOfMemory>
    ensures { OnOk result (out.new.items ≡ out.old.items ++ shown_lines line.now before) }
{
    let from = cut_from(before);
    out.extend_from_slice(b"    ")?;
    push_shown(out, part_from(line, from))?;
    out.extend_from_slice(b"\n    ")?;
    push_blanks(out, before - from)?;
    out.extend_from_slice(b"^\n")?;
    Ok(())
}
