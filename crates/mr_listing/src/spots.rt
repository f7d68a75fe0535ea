//! Places of a program in its text.
ghost use Rattle.std.specs.Prelude.{◌≡◌, ◌++◌, ◌≤◌, IfOk, OnOk, length, min, take};
ghost use Rattle.std.specs.List.{prefix_len};
ghost use Rattle.mr_listing.specs.Seen.{seen};
ghost use Rattle.mr_listing.specs.Spots.{behind_cut, behind_front, cut_text, found_text, is_inside, spot_text};
ghost use Rattle.mr_listing.specs.Spots.{stand_text, statement_text};

use crate::OutOfMemory;
use crate::shown::Shown;
use mr_labels::{Stand, block_word, function_word, push_number};
use mr_places::Spot;
use std::alloc::Global;

// So many bytes of a statement are written at most.
const WIDTH: usize = 60;

// Whether a byte isn't the end of a statement, of its line, or of its line's part before a comment.
fn is_inside(byte: u8) -> bool
    ensures { result ≡ is_inside byte }
{
    byte != b';' && byte != b'\n' && byte != b'\r' && byte != b'#'
}

// How many of these bytes belong to the statement and stand on its first line.
fn stmt_length(front: &[u8]) -> usize
    ensures { result ≡ prefix_len is_inside front.now }
{
    front.iter().take_while(|byte| is_inside(**byte)).count()
}

// The bytes that tell what is written of a statement, of which no more than `WIDTH` are.
fn front_of(rest: &[u8]) -> &[u8]
    ensures { result.now ≡ take (min (length rest.now) 61) rest.now }
{
    &rest[..rest.len().min(WIDTH + 1)]
}

// Appends what stands behind the part of a statement that is written, by the byte behind it: nothing where that is its
// end.
fn push_behind_cut(out: &mut Vec<u8>, next: Option<u8>) -> Result<(), OutOfMemory>
    ensures { OnOk result (out.new.items ≡ out.old.items ++ behind_cut next) }
{
    match next {
        Some(byte) => {
            if byte == b';' {
                Ok(())
            } else {
                out.extend_from_slice(b" ..")
            }
        }
        None => out.extend_from_slice(b" .."),
    }
}

// The same behind so many bytes of a statement, of which no more than `WIDTH` are written.
fn push_behind_front(out: &mut Vec<u8>, rest: &[u8], count: usize) -> Result<(), OutOfMemory>
    ensures { OnOk result (out.new.items ≡ out.old.items ++ behind_front rest.now count) }
{
    if count > WIDTH {
        out.extend_from_slice(b" ..")
    } else {
        push_behind_cut(out, rest.get(count).copied())
    }
}

// Appends so many bytes of a statement, as far as they are written, and whether there is more of it.
fn push_cut(out: &mut Vec<u8>, rest: &[u8], count: usize) -> Result<(), OutOfMemory>
    requires { count ≤ length rest.now }
    ensures { OnOk result (out.new.items ≡ out.old.items ++ cut_text rest.now count) }
{
    let width = count.min(WIDTH);
    out.extend_from_slice(&rest[..width])?;
    push_behind_front(out, rest, count)
}

// Appends the statement that these bytes begin with, as far as it stands on its first line.
fn push_front(out: &mut Vec<u8>, rest: &[u8]) -> Result<(), OutOfMemory>
    ensures { OnOk result (out.new.items ≡ out.old.items ++ cut_text rest.now (prefix_len is_inside rest.now)) }
{
    push_cut(out, rest, stmt_length(front_of(rest)))
}

// Appends the statement that begins at a byte of the text, as far as it stands on its first line.
fn push_statement(out: &mut Vec<u8>, text: &[u8], at: usize) -> Result<(), OutOfMemory>
    ensures { OnOk result (out.new.items ≡ out.old.items ++ statement_text text.now at) }
{
    if at > text.len() {
        return Ok(());
    }
    push_front(out, &text[at..])
}

// Appends the line and the column of a place.
pub(crate) fn push_spot(out: &mut Vec<u8>, spot: Spot) -> Result<(), OutOfMemory>
    ensures { OnOk result (out.new.items ≡ out.old.items ++ spot_text spot) }
{
    push_number(out, spot.line.into())?;
    out.push(b':')?;
    push_number(out, spot.col.into())
}

// Appends where a thread stands: line and column, function, block, and the statement.
fn push_found(
    out: &mut Vec<u8>,
    shown: &Shown<'_>,
    stand: Stand,
    spot: Spot,
) -> Result<(), OutOfMemory>
    ensures { OnOk result (out.new.items ≡ out.old.items ++ found_text (seen shown.now) stand spot) }
{
    push_spot(out, spot)?;
    out.extend_from_slice(b"  ")?;
    out.extend_from_slice(function_word(shown.program, stand.function).as_bytes())?;
    out.push(b' ')?;
    out.extend_from_slice(block_word(shown.program, stand.function, stand.block).as_bytes())?;
    out.extend_from_slice(b"  ")?;
    push_statement(out, shown.text, spot.at)
}

/// Appends where a thread stands, if it does.
pub(crate) fn push_stand(
    out: &mut Vec<u8>,
    shown: &Shown<'_>,
    stand: Option<Stand>,
) -> Result<(), OutOfMemory>
    ensures { OnOk result (out.new.items ≡ out.old.items ++ stand_text (seen shown.now) stand) }
{
    let Some(stand) = stand else {
        return Ok(());
    };
    match shown.places.of(stand.function, stand.block, stand.at) {
        Some(spot) => push_found(out, shown, stand, spot),
        None => Ok(()),
    }
}

/// The text of where a thread stands, if it does. An `Err` is for want of memory.
pub fn stand_text(
    alloc: Global,
    shown: &Shown<'_>,
    stand: Option<Stand>,
) -> Result<Vec<u8>, OutOfMemory>
    ensures { IfOk result (λ text. text.items ≡ stand_text (seen shown.now) stand) }
{
    let mut out = Vec::new(alloc);
    push_stand(&mut out, shown, stand)?;
    Ok(out)
}
