//! The numbers of requests.

ghost use Rattle.std.specs.Prelude.{◌≡◌, ◌≤◌, IfErr, IfOk};
ghost use Rattle.pipe_requests.specs.Numbers.{HasNoNumber, IsSigned, IsSize, IsUnsigned, IsWithin};

use crate::bad::Bad;
use text_lines::number;

/// The value of some digits, or the largest `u64` where the value is larger. `Number` for another
/// word.
pub(crate) fn unsigned(word: &[u8]) -> Result<u64, Bad>
    ensures ok { IfOk result (IsUnsigned word.now) }
    ensures err { IfErr result (HasNoNumber (IsUnsigned word.now)) }
{
    number(word).ok_or(Bad::Number)
}

/// The value of some digits, perhaps behind a minus, or the nearest number from -(2^63 - 1) to
/// 2^63 - 1. `Number` for another word.
pub(crate) fn signed(word: &[u8]) -> Result<i64, Bad>
    ensures ok { IfOk result (IsSigned word.now) }
    ensures err { IfErr result (HasNoNumber (IsSigned word.now)) }
{
    match word.strip_prefix(b"-") {
        Some(digits) => Ok(-size(digits)?),
        None => size(word),
    }
}

// The value of some digits, or the largest `i64` where the value is larger.
fn size(digits: &[u8]) -> Result<i64, Bad>
    ensures ok { IfOk result (IsSize digits.now) }
    ensures err { IfErr result (HasNoNumber (IsSize digits.now)) }
{
    let value = unsigned(digits)?;
    Ok(i64::try_from(value).unwrap_or(i64::MAX))
}

/// The value of some digits, which lies between two limits. `Number` for another word.
pub(crate) fn limited(word: &[u8], least: u64, most: u64) -> Result<u64, Bad>
    requires { most ≤ 9223372036854775808 }
    ensures ok { IfOk result (IsWithin least most word.now) }
    ensures err { IfErr result (HasNoNumber (IsWithin least most word.now)) }
{
    let value = unsigned(word)?;
    if least <= value && value <= most {
        Ok(value)
    } else {
        Err(Bad::Number)
    }
}
