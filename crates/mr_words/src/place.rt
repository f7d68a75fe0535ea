//! The place of a fault in a text.
ghost use Rattle.std.specs.Prelude.{◌≡◌, ◌+◌, ◌-◌, ◌==◌, ◌^◌, ◌<◌, ◌≤◌, if◌then◌else◌, length};
ghost use Rattle.mr_lex.specs.Limits.{max_text};
ghost use Rattle.mr_lex.specs.Places.{column_of, line_of};
ghost use Rattle.mr_words.specs.TextFaults.{fault_at};

use crate::fault::Stop;
use mr_lex::{TextFault, Tokens};

// The fault, one byte further.
fn behind(fault: TextFault, byte: u8) -> TextFault
    requires line { fault.line < 2 ^ 32 - 1 }
    requires col { fault.col < 2 ^ 32 - 1 }
    ensures { result ≡ (if byte == 10
        then record { line = fault.line + 1; col = 1; code = fault.code }
        else record { line = fault.line; col = fault.col + 1; code = fault.code }) }
{
    if byte == b'\n' {
        TextFault {
            line: fault.line + 1,
            col: 1,
            code: fault.code,
        }
    } else {
        TextFault {
            line: fault.line,
            col: fault.col + 1,
            code: fault.code,
        }
    }
}

// The fault with this code at the end of a text.
fn fault_at_end(text: &[u8], code: u8) -> TextFault
    requires { length text.now ≤ max_text }
    ensures { result ≡ record {
      line = line_of text.now (length text.now);
      col = column_of text.now
          (length text.now);
      code = code;
    } }
{
    let mut fault = TextFault {
        line: 1,
        col: 1,
        code,
    };
    for byte in text {
        fault = behind(fault, *byte);
    }
    fault
}

/// The fault of a text where reading stops: at one of its tokens, or at its end.
pub fn fault_at(text: &[u8], tokens: &Tokens<'_>, stop: Stop) -> TextFault
    requires { length text.now ≤ max_text }
    ensures { result ≡ fault_at text.now tokens.now stop }
{
    match tokens.get(tokens.len().saturating_sub(stop.left)) {
        Some(token) => TextFault {
            line: token.line,
            col: token.col,
            code: stop.code,
        },
        None => fault_at_end(text, stop.code),
    }
}
