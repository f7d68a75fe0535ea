//! Numbers among the words behind the program's name.
ghost use Rattle.std.specs.Prelude.{◌≡◌, ◌<◌, IfSome};
ghost use Rattle.mr_input.specs.Numbers.{number_below};

use mr_words::number_of;

/// A number in decimal, which is below a limit.
pub fn number_below(word: &str, limit: u128) -> Option<u128>
    ensures number { result ≡ number_below limit word.now }
    ensures below { IfSome result (λ n. n < limit) }
{
    let number = number_of(word.as_bytes())?;
    if number < limit { Some(number) } else { None }
}
