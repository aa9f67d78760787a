//! What holds of every rule and of every text.

ghost use Rattle.std.specs.Prelude.{◌≡◌, ℕ, List, Result, Ok};
ghost use Rattle.rule_text.specs.CountRule.{CountRule, IsRule};
ghost use Rattle.rule_text.specs.RuleCode.{code_of};
ghost use Rattle.rule_text.specs.RuleText.{Reads, canonical_text};
ghost use Rattle.rule_text.specs.declared.fault.RuleFault.{RuleFault};

/// A text is read in one way only: as one rule or with one fault.
pub fn one_reading()
    ensures { (text : List ℕ) (a b : Result CountRule RuleFault) →
        Reads text a → Reads text b → a ≡ b }
{}

/// A rule's canonical text is read as that rule.
pub fn canonical_text_read_back()
    ensures { (rule : CountRule) → IsRule rule → Reads (canonical_text rule) (Ok rule) }
{}

/// No two rules have one canonical text.
pub fn one_rule_a_text()
    ensures { (a b : CountRule) → IsRule a → IsRule b →
        canonical_text a ≡ canonical_text b → a ≡ b }
{}

/// No two rules have one code.
pub fn one_rule_a_code()
    ensures { (a b : CountRule) → IsRule a → IsRule b → code_of a ≡ code_of b → a ≡ b }
{}
