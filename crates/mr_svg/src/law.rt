//! The law of texts.
ghost use Rattle.std.specs.Prelude.{ℕ, List, map};
ghost use Rattle.mr_svg.specs.Escape.{Reads, escaped, shown_byte};

/// A law: what is written of a text is character data of XML, and reads as the bytes that are shown for it. It has no
/// `<`, `>` or `"`, each `&` of it begins the name of one of these four, and no byte of it is a control character but
/// the end of a line.
pub fn escaped_reads_back()
    ensures { (text : List ℕ) → Reads (escaped text) (map shown_byte text) }
{}
