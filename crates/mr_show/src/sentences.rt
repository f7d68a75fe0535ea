//! What codes say, in sentences.
ghost use Rattle.std.specs.Prelude.{◌≡◌, ◌++◌, OnOk};
ghost use Rattle.mr_listing.specs.ReportReport.{line};
ghost use Rattle.mr_show.specs.Sentences.{reason_text, sentence_of};

use mr_base::Verdict;
use mr_why::entry;
use std::alloc::AllocError;

/// What a code says.
pub(crate) fn sentence_of(code: u16) -> &'static str
    ensures { result.now ≡ sentence_of code }
{
    match entry(code) {
        Some(found) => found.said.what,
        None => "",
    }
}

// Appends a line.
fn push_line(out: &mut Vec<u8>, text: &str) -> Result<(), AllocError>
    ensures { OnOk result (out.new.items ≡ out.old.items ++ line text.now) }
{
    out.extend_from_slice(text.as_bytes())?;
    out.push(b'\n')?;
    Ok(())
}

/// Appends the line of the reason for which a run is undefined, where it is.
pub(crate) fn push_reason(out: &mut Vec<u8>, verdict: Verdict) -> Result<(), AllocError>
    ensures { OnOk result (out.new.items ≡ out.old.items ++ reason_text verdict) }
{
    match verdict {
        Verdict::Undefined(reason) => push_line(out, sentence_of(reason.code())),
        Verdict::Running | Verdict::Exit | Verdict::Leak | Verdict::Abort | Verdict::Deadlock => Ok(
            (),
        ),
    }
}
