//! The divisors of a number, from the least on.

ghost use Rattle.std.specs.Prelude.{◌<◌, ◌≤◌};
ghost use Rattle.period_search.specs.Divisors.{IsLastUpTo, IsNextDivisor};

/// The least divisor of a number that is greater than `tried`. It tries no number above the square
/// root but divides by those below it, from the greatest down.
pub(crate) fn next_divisor(whole: u64, tried: u64) -> u64
    requires { tried < whole }
    ensures { IsNextDivisor whole tried result }
{
    for divisor in tried + 1..whole {
        if whole % divisor == 0 {
            return divisor;
        }
        if whole / divisor < divisor {
            return whole / last_divisor(whole, whole / divisor);
        }
    }
    whole
}

// The greatest divisor of a number that is at most so much.
fn last_divisor(whole: u64, most: u64) -> u64
    requires { 1 ≤ most }
    ensures { IsLastUpTo whole most result }
{
    let mut divisor = most;
    while whole % divisor != 0 {
        divisor -= 1;
    }
    divisor
}
