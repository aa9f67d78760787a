//! The words of pairs and of results.

ghost use Rattle.std.specs.Prelude.{◌≡◌, ◌+◌, ◌^◌};
ghost use Rattle.table_core.specs.Layout.{first_part, second_part, pair_of};

/// The word of a pair of two numbers.
pub fn pair_word(first: u32, second: u32) -> u64
    ensures word { result ≡ pair_of first second }
    ensures first { first_part result ≡ first }
    ensures second { second_part result ≡ second }
{
    (u64::from(first) << 32) + u64::from(second)
}

/// The two numbers of a pair's word. Of a result's word the second is the number of the future.
pub fn parts(word: u64) -> (u32, u32)
    ensures first { result.0 ≡ first_part word }
    ensures second { result.1 ≡ second_part word }
{
    ((word >> 32) as u32, (word % (1 << 32)) as u32)
}

/// The word of a result: the number of the future, marked so that the word is never 0.
pub fn result_word(number: u32) -> u64
    ensures word { result ≡ 2 ^ 32 + number }
    ensures number { second_part result ≡ number }
{
    (1 << 32) + u64::from(number)
}
