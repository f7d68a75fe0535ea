//! Texts as character data.
ghost use Rattle.std.specs.Prelude.{◌≡◌, ◌++◌, OnOk};
ghost use Rattle.mr_svg.specs.Escape.{escaped, named_byte, shown_byte};

use crate::OutOfMemory;

// What is shown for a byte.
fn shown_byte(byte: u8) -> u8
    ensures { result ≡ shown_byte byte }
{
    match byte {
        b'\n' => b'\n',
        b'\t' => b' ',
        32..=126 => byte,
        _ => b'?',
    }
}

// Appends a byte, by its name where markup is made of it.
fn push_named(out: &mut Vec<u8>, byte: u8) -> Result<(), OutOfMemory>
    ensures { OnOk result (out.new.items ≡ out.old.items ++ named_byte byte) }
{
    match byte {
        b'<' => out.extend_from_slice(b"&lt;"),
        b'>' => out.extend_from_slice(b"&gt;"),
        b'&' => out.extend_from_slice(b"&amp;"),
        b'"' => out.extend_from_slice(b"&quot;"),
        _ => {
            out.push(byte)?;
            Ok(())
        }
    }
}

/// Appends a text as character data.
pub(crate) fn push_escaped(out: &mut Vec<u8>, text: &[u8]) -> Result<(), OutOfMemory>
    ensures { OnOk result (out.new.items ≡ out.old.items ++ escaped text.now) }
{
    for byte in text {
        push_named(out, shown_byte(*byte))?;
    }
    Ok(())
}
