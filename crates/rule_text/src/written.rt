//! How a rule is written.

ghost use Rattle.std.specs.Prelude.{◌≡◌, IfOk};
ghost use Rattle.rule_text.specs.CountRule.{IsRule};
ghost use Rattle.rule_text.specs.RuleText.{Reads, canonical_text};

use crate::digits::Digits;
use crate::fault::RuleFault;
use crate::parts::find_parts;
use crate::rule::Rule;
use arrayvec::ArrayString;

impl Rule {
    /// Reads a rule's text: the digits of birth and of survival as `B3/S23`, `S23/B3`, `B3S23`,
    /// `S23B3` or, survival first, `23/3`, and then the letter `V` or `H` of a neighbourhood other
    /// than Moore's, or `M`. Letters stand in either case, digits in any order, also repeated, and
    /// spaces and tabs at the ends are left out.
    ///
    /// A text in no such form, or with a digit above the number of neighbours, is a `BadRule`. Any
    /// other text with 0 among the digits of birth is `BirthOnZero`.
    pub fn read(text: &[u8]) -> Result<Rule, RuleFault>
        ensures reads { Reads text.now result }
        ensures rule { IfOk result IsRule }
    {
        let Some(parts) = find_parts(text) else {
            return Err(RuleFault::BadRule);
        };
        let neighbourhood = parts.neighbourhood;
        let Some(birth) = Digits::read(parts.birth, neighbourhood) else {
            return Err(RuleFault::BadRule);
        };
        let Some(survival) = Digits::read(parts.survival, neighbourhood) else {
            return Err(RuleFault::BadRule);
        };
        if birth.contains(0) {
            return Err(RuleFault::BirthOnZero);
        }
        Ok(Rule {
            neighbourhood,
            birth,
            survival,
        })
    }

    /// The canonical text, as `B3/S23` or `B2/S34H`: `B`, the digits of birth, `/S`, the digits of
    /// survival, both rising, and then `V` or `H` for a neighbourhood other than Moore's.
    pub fn text(&self) -> ArrayString<24>
        ensures text { result.bytes ≡ canonical_text self.now }
        ensures rule { IsRule self.now }
    {
        let mut text = ArrayString::new();
        text.push('B');
        self.birth.write(&mut text);
        text.push_str("/S");
        self.survival.write(&mut text);
        if let Some(letter) = self.neighbourhood.suffix() {
            text.push(letter);
        }
        text
    }
}
