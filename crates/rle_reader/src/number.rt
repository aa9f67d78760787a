//! Whole numbers of any length, which may have a `-` before them.

ghost use Rattle.std.specs.Prelude.{◌≡◌, min, pos, neg_ℤ};
ghost use Rattle.std.specs.Option.{option_map};
ghost use Rattle.rle_reader.specs.Numbers.{integer_of, clamped};

use text_lines::number;

/// The value of a number that may have a `-` before it, or what is nearest to it in the range of
/// `i64` without its least number.
pub(crate) fn integer(text: &[u8]) -> Option<i64>
    ensures { result ≡ option_map clamped (integer_of text.now) }
{
    match text.strip_prefix(b"-") {
        Some(digits) => negative(number(digits)),
        None => positive(number(text)),
    }
}

fn positive(size: Option<u64>) -> Option<i64>
    ensures { result ≡ option_map (λ size. pos (min size 9223372036854775807)) size }
{
    size.map(as_signed)
}

fn negative(size: Option<u64>) -> Option<i64>
    ensures { result ≡ option_map (λ size. neg_ℤ (pos (min size 9223372036854775807))) size }
{
    size.map(|size| -as_signed(size))
}

// The number, or the largest `i64` if it is larger.
fn as_signed(number: u64) -> i64
    ensures { result ≡ pos (min number 9223372036854775807) }
{
    number.min(i64::MAX as u64) as i64
}
