//! The lines of an RLE file round its comments: position and generation, and the header.

ghost use Rattle.std.specs.Prelude.{◌≡◌};
ghost use Rattle.rule_text.specs.RuleText.{canonical_text};
ghost use Rattle.pattern_writers.specs.Preamble.{header_line, position_line};

use plane::{Cell, TextLine};
use rule_text::Rule;

// Room for a line of up to three numbers of 40 digits or two and a rule.
const LINE_ROOM: usize = 160;

/// The line that says where the pattern lies and in which generation.
pub(crate) fn position_line(corner: Cell, generation: u64) -> TextLine<LINE_ROOM>
    ensures { result ≡ position_line corner.x corner.y generation }
{
    let mut line = TextLine::new();
    line.push("#CXRLE Pos=");
    line.push_signed(corner.x);
    line.push(",");
    line.push_signed(corner.y);
    line.push(" Gen=");
    line.push_number(generation);
    line.push("\n");
    line
}

/// The header: the sides of the box and the rule.
pub(crate) fn header_line(width: u64, height: u64, rule: &Rule) -> TextLine<LINE_ROOM>
    ensures { result ≡ header_line width height (canonical_text rule.now) }
{
    let mut line = TextLine::new();
    line.push("x = ");
    line.push_number(width);
    line.push(", y = ");
    line.push_number(height);
    line.push(", rule = ");
    line.push(rule.text().as_str());
    line.push("\n");
    line
}
