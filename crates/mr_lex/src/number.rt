//! Numbers of a text, and their values.
ghost use Rattle.std.specs.Prelude.{◌≡◌, ◌^◌, ◌<◌, SomeIff};
ghost use Rattle.std.specs.List.{AllPass};
ghost use Rattle.mr_lex.specs.Bytes.{is_digit};
ghost use Rattle.mr_lex.specs.Numbers.{number_of};
ghost use Rattle.mr_lex.specs.Reading.{is_fine_number};

/// Whether a text may hold the number: it has no other digit behind a zero in front, and at most 128 bits.
pub fn is_fine_number(digits: &[u8]) -> bool
    requires { AllPass is_digit digits.now }
    ensures { result ≡ is_fine_number digits.now }
{
    let plain = digits.first() != Some(&b'0') || digits.len() == 1;
    plain && value_of(digits).is_some()
}

/// The value of decimal digits, where it has at most 128 bits.
pub fn value_of(digits: &[u8]) -> Option<u128>
    requires { AllPass is_digit digits.now }
    ensures { SomeIff result (number_of digits.now < 2 ^ 128) (number_of digits.now) }
{
    let mut value = 0u128;
    for digit in digits {
        value = value
            .checked_mul(10)?
            .checked_add(u128::from(*digit - b'0'))?;
    }
    Some(value)
}
