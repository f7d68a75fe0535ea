//! Why a text denotes no program.
use mr_lex::TextFault;

/// Why a text denotes no program.
#[derive(Clone, Copy, Debug, PartialEq, Eq)]
pub enum ParseFault {
    /// The text's first fault.
    Text(TextFault),
    /// Memory ran out.
    Memory,
}
