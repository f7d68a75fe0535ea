//! Marks as they are written, one after the other.
ghost use Rattle.std.specs.Prelude.{◌≡◌, ◌++◌, OnOk, flat_map};
ghost use Rattle.mr_picture.specs.Steps.{mark_of};
ghost use Rattle.mr_picture.specs.Written.{as_written, text_of};

use crate::OutOfMemory;
use mr_sched::Items;
use mr_svg::{Shape, Sign};

/// A mark as it is written.
#[derive(Drop)]
pub(crate) struct Written {
    pub sign: Sign,
    pub text: Items<u8>,
}

/// Writes a mark behind these.
pub(crate) fn push_mark(
    out: &mut Vec<Written>,
    sign: Sign,
    shape: Shape,
    words: &[u8],
    title: &[u8],
) -> Result<(), OutOfMemory>
    ensures { OnOk result (out.new.items ≡ out.old.items ++ as_written (mark_of sign shape words.now title.now)) }
{
    let mut text = Vec::new(*out.allocator());
    mr_svg::push_mark(&mut text, sign, shape, words, title)?;
    out.push(Written {
        sign,
        text: Items::from_vec(text),
    })?;
    Ok(())
}

/// Appends the texts of these marks.
pub(crate) fn push_texts(out: &mut Vec<u8>, marks: &[Written]) -> Result<(), OutOfMemory>
    ensures { OnOk result (out.new.items ≡ out.old.items ++ flat_map text_of marks.now) }
{
    for mark in marks {
        out.extend_from_slice(mark.text.as_slice())?;
    }
    Ok(())
}
