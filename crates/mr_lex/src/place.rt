//! Places in a text: offset, line and column.
ghost use Rattle.std.specs.Prelude.{◌≡◌, ◌+◌, ◌<◌, ◌≤◌, length, slice_range};
ghost use Rattle.mr_lex.specs.Limits.{max_text};
ghost use Rattle.mr_lex.specs.Scanning.{IsPlaceIn, IsOneLine};

use crate::token::{LexFault, TextFault};

/// Where a byte of a text stands: its offset from 0 on, its line and its column from 1 on.
#[derive(Clone, Copy)]
pub struct Place {
    pub at: usize,
    pub line: u32,
    pub col: u32,
}

impl Place {
    /// The place of a text's first byte.
    pub fn first() -> Place
        ensures { result ≡ record { at = 0; line = 1; col = 1 } }
    {
        Place {
            at: 0,
            line: 1,
            col: 1,
        }
    }

    /// The fault with this code at the place.
    pub fn fault(self, code: u8) -> LexFault
        ensures { result ≡ LexFault.Bad (record { line = self.line; col = self.col; code = code }) }
    {
        LexFault::Bad(TextFault {
            line: self.line,
            col: self.col,
            code,
        })
    }

    /// The place behind the next bytes of the text, among which a line feed stands only alone.
    pub fn behind(self, text: &[u8], len: usize) -> Place
        requires short { length text.now ≤ max_text }
        requires placed { IsPlaceIn text.now self }
        requires some { 0 < len }
        requires within { self.at + len ≤ length text.now }
        requires one_line { IsOneLine (slice_range text.now self.at (self.at + len)) }
        ensures at { result.at ≡ self.at + len }
        ensures placed { IsPlaceIn text.now result }
    {
        let at = self.at + len;
        if text[self.at] == b'\n' {
            Place {
                at,
                line: self.line + 1,
                col: 1,
            }
        } else {
            Place {
                at,
                line: self.line,
                col: self.col + len as u32,
            }
        }
    }
}
