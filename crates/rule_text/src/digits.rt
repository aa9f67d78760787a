//! Sets of digits, in which births and survivals are counted.

ghost use Rattle.std.specs.Prelude.{◌≡◌, ℕ, ◌+◌, ◌^◌, ◌<◌, ◌≤◌, List, [], ◌∷◌, ◌++◌, length, sum_by, IfSome, IfNone};
ghost use Rattle.arrayvec.specs.ArrayString.{array_string_len};
ghost use Rattle.std.specs.Char.{is_ascii_digit};
ghost use Rattle.std.specs.List.{AllPass};
ghost use Rattle.rule_text.specs.CountRule.{Fit, has, rising};
ghost use Rattle.rule_text.specs.RuleCut.{digit_values};
ghost use Rattle.rule_text.specs.RuleText.{digit_text};

use crate::neighbourhood::Neighbourhood;
use arrayvec::ArrayString;
use std::marker::Model;

/// A set of digits, from 0 to 8.
#[derive(Clone, Copy, Debug, PartialEq, Eq)]
pub(crate) struct Digits {
    listed: [bool; 9],
}

impl Model for Digits {
    ghost use Rattle.std.specs.Prelude.{◌≡◌, ℕ, List, length};
    ghost use Rattle.std.proofs.Common.{ap};
    ghost use Rattle.rule_text.specs.CountRule.{digits_listed, listed_digits};
    ghost use Rattle.rule_text.specs.DigitMarks.{listed_again};

    ghost Value = { List ℕ };

    ghost view = { λ digits. digits_listed digits.listed };

    ghost invariant = { λ digits. length digits.listed ≡ 9 };

    ghost inverse = { λ digits. record { listed = listed_digits digits } };

    ghost inverse_ok = { λ digits nine.
        ap (λ listed. record { listed = listed }) (listed_again digits.listed nine) };
}

impl Digits {
    /// No digits.
    pub(crate) fn new() -> Self
        ensures { result ≡ [] }
    {
        Digits { listed: [false; 9] }
    }

    /// The digits of a text of digits, unless one is above the number of neighbours.
    pub(crate) fn read(text: &[u8], neighbourhood: Neighbourhood) -> Option<Self>
        requires { AllPass is_ascii_digit text.now }
        ensures digits { IfSome result (λ digits. digits ≡ rising (digit_values text.now)) }
        ensures fit { IfSome result (λ _. Fit neighbourhood (digit_values text.now)) }
        ensures unfit { IfNone result (¬ Fit neighbourhood (digit_values text.now)) }
    {
        let most = neighbourhood.neighbour_count();
        let mut digits = Digits::new();
        for byte in text {
            let digit = *byte - b'0';
            if digit > most {
                return None;
            }
            digits.insert(digit);
        }
        Some(digits)
    }

    /// Puts a digit into the set, if it is not there yet.
    pub(crate) fn insert(&mut self, digit: u8)
        requires { digit ≤ 8 }
        ensures { self.new ≡ rising (digit ∷ self.old) }
    {
        self.listed[digit as usize] = true;
    }

    /// Whether a number is one of the digits.
    pub(crate) fn contains(self, count: u8) -> bool
        ensures { result ≡ has self count }
    {
        self.listed.get(count as usize).copied().unwrap_or(false)
    }

    /// Adds the digits to a text, rising.
    pub(crate) fn write(self, text: &mut ArrayString<24>)
        requires { array_string_len text.old + 9 ≤ 24 }
        ensures digits { text.new.bytes ≡ text.old.bytes ++ digit_text (rising self) }
        ensures length { array_string_len text.new ≤ array_string_len text.old + 9 }
    {
        for digit in 0..9 {
            if self.contains(digit) {
                text.push(char::from(b'0' + digit));
            }
        }
    }

    /// The number that has a bit for each digit.
    pub(crate) fn bits(self) -> u32
        ensures sum { result ≡ sum_by (λ digit. 2 ^ digit) (rising self) }
        ensures bound { result < 2 ^ 9 }
    {
        let mut bits = 0;
        for digit in 0..9 {
            if self.contains(digit) {
                bits += 1 << digit;
            }
        }
        bits
    }
}
