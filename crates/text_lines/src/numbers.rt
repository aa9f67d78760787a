//! Decimal numbers of any length.

ghost use Rattle.std.specs.Prelude.{◌≡◌};
ghost use Rattle.std.specs.Char.{IsAsciiDigit};
ghost use Rattle.std.specs.Option.{option_map};
ghost use Rattle.text_lines.specs.Numbers.{number_of, with_digit, capped};

/// The number as it stands after one digit more. It stays at the largest `u64` once it is as large.
pub fn with_digit(number: u64, digit: u8) -> u64
    requires { IsAsciiDigit digit }
    ensures { result ≡ capped (with_digit number digit) }
{
    number
        .saturating_mul(10)
        .saturating_add(u64::from(digit - b'0'))
}

/// The value of a text of one or more digits, or the largest `u64` if the value is larger. Other
/// texts are not numbers.
pub fn number(text: &[u8]) -> Option<u64>
    ensures { result ≡ option_map capped (number_of text.now) }
{
    if text.is_empty() {
        return None;
    }
    let mut value = 0;
    for byte in text {
        if !byte.is_ascii_digit() {
            return None;
        }
        value = with_digit(value, *byte);
    }
    Some(value)
}
