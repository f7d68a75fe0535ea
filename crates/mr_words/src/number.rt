//! The number that a text is.
ghost use Rattle.std.specs.Prelude.{◌≡◌, ◌||◌, ◌==◌, not, length, slice_index, None, Some, if◌then◌else◌};
ghost use Rattle.std.specs.List.{list_all};
ghost use Rattle.std.specs.Char.{is_ascii_digit};
ghost use Rattle.mr_ast.specs.Words.{first_passes, is_number, value_of};

use mr_lex::value_of;

fn is_digit(byte: u8) -> bool
    ensures { result ≡ is_ascii_digit byte }
{
    byte.is_ascii_digit()
}

fn begins_with_digit(text: &[u8]) -> bool
    ensures { result ≡ first_passes is_ascii_digit text.now }
{
    match text {
        [first, ..] => is_digit(*first),
        [] => false,
    }
}

fn has_digits(text: &[u8]) -> bool
    ensures { result ≡ list_all is_ascii_digit text.now }
{
    text.iter().all(|byte| is_digit(*byte))
}

// Whether no 0 stands before other digits.
fn is_plain(digits: &[u8]) -> bool
    ensures { result ≡ (not (slice_index digits.now 0 == 48) || (length digits.now == 1)) }
{
    match digits {
        [b'0'] => true,
        [b'0', ..] => false,
        _ => true,
    }
}

/// The number of this text, where it is one.
#[tactic(auto, unfolding(mr_ast::specs::Words::is_number))]
pub fn number_of(text: &[u8]) -> Option<u128>
    ensures { result ≡ (if is_number text.now then Some (value_of text.now) else None) }
{
    if begins_with_digit(text) && has_digits(text) && is_plain(text) {
        value_of(text)
    } else {
        None
    }
}
