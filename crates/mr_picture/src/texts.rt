//! Texts of steps and links.
ghost use Rattle.std.specs.Prelude.{◌≡◌, ◌+◌, ◌++◌, IfOk, OnOk, decimal, drop};
ghost use Rattle.mr_picture.specs.Texts.{cut, cut_at, step_word};

use crate::OutOfMemory;
use mr_labels::push_count;
use std::alloc::Global;

/// Appends a text of our own.
pub(crate) fn push(out: &mut Vec<u8>, text: &str) -> Result<(), OutOfMemory>
    ensures { OnOk result (out.new.items ≡ out.old.items ++ text.now) }
{
    out.extend_from_slice(text.as_bytes())
}

/// Appends a step, counted from 1.
pub fn push_step_word(out: &mut Vec<u8>, step: usize) -> Result<(), OutOfMemory>
    ensures { OnOk result (out.new.items ≡ out.old.items ++ step_word step) }
{
    push(out, "step ")?;
    push_count(out, step)
}

/// What stands behind the first two bytes of a text.
pub(crate) fn behind_two(text: &[u8]) -> &[u8]
    ensures { result.now ≡ drop 2 text.now }
{
    match text {
        [_, _, rest @ ..] => rest,
        _ => &[],
    }
}

/// Appends that.
pub(crate) fn push_behind_two(out: &mut Vec<u8>, text: &[u8]) -> Result<(), OutOfMemory>
    ensures { OnOk result (out.new.items ≡ out.old.items ++ drop 2 text.now) }
{
    out.extend_from_slice(behind_two(text))
}

/// The number of a step, counted from 1.
pub(crate) fn count_text(alloc: Global, at: usize) -> Result<Vec<u8>, OutOfMemory>
    ensures { IfOk result (λ text. text.items ≡ decimal (at + 1)) }
{
    let mut out = Vec::new(alloc);
    push_count(&mut out, at)?;
    Ok(out)
}

/// Appends a text as it is drawn: so many of its first bytes, and ` ..` where it has more.
pub(crate) fn push_cut(out: &mut Vec<u8>, most: usize, text: &[u8]) -> Result<(), OutOfMemory>
    ensures { OnOk result (out.new.items ≡ out.old.items ++ cut_at most text.now) }
{
    if text.len() <= most {
        return out.extend_from_slice(text);
    }
    out.extend_from_slice(&text[..most])?;
    out.extend_from_slice(b" ..")
}

/// The same as a text of its own.
pub(crate) fn cut_at(alloc: Global, most: usize, text: &[u8]) -> Result<Vec<u8>, OutOfMemory>
    ensures { IfOk result (λ short. short.items ≡ cut_at most text.now) }
{
    let mut short = Vec::new(alloc);
    push_cut(&mut short, most, text)?;
    Ok(short)
}

/// A text as it is drawn beside a step.
pub(crate) fn cut(alloc: Global, text: &[u8]) -> Result<Vec<u8>, OutOfMemory>
    ensures { IfOk result (λ short. short.items ≡ cut text.now) }
{
    cut_at(alloc, 60, text)
}
