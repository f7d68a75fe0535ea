//! Marks.
ghost use Rattle.std.specs.Prelude.{◌≡◌, ◌++◌, OnOk, decimal};
ghost use Rattle.mr_svg.specs.Svg.{band_text, bend_text, corner_text, line_text, mark_text, outline_text, point_text};
ghost use Rattle.mr_svg.specs.Svg.{shape_text, sign_word, words_text};

use crate::OutOfMemory;
use crate::escape::push_escaped;
use crate::shape::{Corner, Point, Shape, Sign};
use itoa::Buffer;

// What the style of a document calls a sign.
fn sign_word(sign: Sign) -> &'static str
    ensures { result.now ≡ sign_word sign }
{
    match sign {
        Sign::Row => "row",
        Sign::Lane => "lane",
        Sign::Step => "step",
        Sign::Racing => "racing",
        Sign::Stop => "stop",
        Sign::Wake => "wake",
        Sign::Dependence => "dependence",
        Sign::MachineOrder => "machine-order",
        Sign::Race => "race",
        Sign::FirstRace => "first-race",
        Sign::LeftOut => "left-out",
        Sign::Title => "title",
        Sign::Name => "name",
        Sign::Text => "text",
        Sign::Note => "note",
    }
}

/// Appends a text of our own.
pub(crate) fn push(out: &mut Vec<u8>, text: &str) -> Result<(), OutOfMemory>
    ensures { OnOk result (out.new.items ≡ out.old.items ++ text.now) }
{
    out.extend_from_slice(text.as_bytes())
}

/// Appends a number in decimal.
pub(crate) fn push_number(out: &mut Vec<u8>, number: u64) -> Result<(), OutOfMemory>
    ensures { OnOk result (out.new.items ≡ out.old.items ++ decimal number) }
{
    let mut buffer = Buffer::new();
    out.extend_from_slice(buffer.format(number).as_bytes())
}

// Appends a point.
fn push_point(out: &mut Vec<u8>, at: Point) -> Result<(), OutOfMemory>
    ensures { OnOk result (out.new.items ≡ out.old.items ++ point_text at) }
{
    push_number(out, at.x)?;
    push(out, " ")?;
    push_number(out, at.y)
}

// Appends a rectangle.
fn push_band(out: &mut Vec<u8>, at: Point, wide: u64, high: u64) -> Result<(), OutOfMemory>
    ensures { OnOk result (out.new.items ≡ out.old.items ++ band_text at wide high) }
{
    push(out, "<path d=\"M")?;
    push_point(out, at)?;
    push(out, "h")?;
    push_number(out, wide)?;
    push(out, "v")?;
    push_number(out, high)?;
    push(out, "h-")?;
    push_number(out, wide)?;
    push(out, "z\"/>")
}

// Appends a line.
fn push_line(out: &mut Vec<u8>, from: Point, to: Point) -> Result<(), OutOfMemory>
    ensures { OnOk result (out.new.items ≡ out.old.items ++ line_text from to) }
{
    push(out, "<path d=\"M")?;
    push_point(out, from)?;
    push(out, "L")?;
    push_point(out, to)?;
    push(out, "\"/>")
}

// Appends a corner.
fn push_corner(out: &mut Vec<u8>, corner: Corner) -> Result<(), OutOfMemory>
    ensures { OnOk result (out.new.items ≡ out.old.items ++ corner_text corner) }
{
    push(out, "L")?;
    push_point(out, corner.before)?;
    push(out, "Q")?;
    push_point(out, corner.at)?;
    push(out, " ")?;
    push_point(out, corner.behind)
}

// Appends a way with a corner.
fn push_bend(
    out: &mut Vec<u8>,
    from: Point,
    corner: Corner,
    come: Point,
    to: Point,
) -> Result<(), OutOfMemory>
    ensures { OnOk result (out.new.items ≡ out.old.items ++ bend_text from corner come to) }
{
    push(out, "<path d=\"M")?;
    push_point(out, from)?;
    push_corner(out, corner)?;
    push(out, "L")?;
    push_point(out, come)?;
    push(out, "L")?;
    push_point(out, to)?;
    push(out, "\"/>")
}

// Appends an outline round a point.
fn push_outline(out: &mut Vec<u8>, at: Point, outline: &str) -> Result<(), OutOfMemory>
    ensures { OnOk result (out.new.items ≡ out.old.items ++ outline_text at outline.now) }
{
    push(out, "<path d=\"M")?;
    push_point(out, at)?;
    push(out, outline)?;
    push(out, "\"/>")
}

// Appends words at a point, which an attribute may move.
fn push_words(out: &mut Vec<u8>, anchor: &str, at: Point, words: &[u8]) -> Result<(), OutOfMemory>
    ensures { OnOk result (out.new.items ≡ out.old.items ++ words_text anchor.now at words.now) }
{
    push(out, "<text")?;
    push(out, anchor)?;
    push(out, " x=\"")?;
    push_number(out, at.x)?;
    push(out, "\" y=\"")?;
    push_number(out, at.y)?;
    push(out, "\">")?;
    push_escaped(out, words)?;
    push(out, "</text>")
}

// Appends a shape. Words stand where the shape has some.
fn push_shape(out: &mut Vec<u8>, shape: Shape, words: &[u8]) -> Result<(), OutOfMemory>
    ensures { OnOk result (out.new.items ≡ out.old.items ++ shape_text shape words.now) }
{
    match shape {
        Shape::Band { at, wide, high } => push_band(out, at, wide, high),
        Shape::Line { from, to } => push_line(out, from, to),
        Shape::Bend {
            from,
            corner,
            come,
            to,
        } => push_bend(out, from, corner, come, to),
        Shape::Dot { at } => push_outline(out, at, "m-6 0a6 6 0 1 0 12 0a6 6 0 1 0-12 0z"),
        Shape::Diamond { at } => push_outline(out, at, "m-8 0l8-8l8 8l-8 8z"),
        Shape::Square { at } => push_outline(out, at, "m-6-6h12v12h-12z"),
        Shape::Words { at } => push_words(out, "", at, words),
        Shape::WordsTo { at } => push_words(out, " text-anchor=\"end\"", at, words),
    }
}

/// Appends a mark: its sign, its shape with the words of that, and the title that is shown with it. An `Err` is for want
/// of memory.
pub fn push_mark(
    out: &mut Vec<u8>,
    sign: Sign,
    shape: Shape,
    words: &[u8],
    title: &[u8],
) -> Result<(), OutOfMemory>
    ensures { OnOk result (out.new.items ≡ out.old.items
        ++ mark_text (record { sign = sign; shape = shape; words = words.now; title = title.now })) }
{
    push(out, "<g class=\"")?;
    push(out, sign_word(sign))?;
    push(out, "\"><title>")?;
    push_escaped(out, title)?;
    push(out, "</title>")?;
    push_shape(out, shape, words)?;
    push(out, "</g>\n")
}
