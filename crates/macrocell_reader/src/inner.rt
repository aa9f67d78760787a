//! Lines of inner nodes: five numbers with blanks between them.

ghost use Rattle.std.specs.Prelude.{◌≡◌, ◌∷◌, ℕ, min, false, MatchOption};
ghost use Rattle.std.specs.List.{position_or_len};
ghost use Rattle.std.specs.Option.{option_map};
ghost use Rattle.text_lines.specs.Bytes.{is_blank};
ghost use Rattle.text_lines.specs.Numbers.{capped};
ghost use Rattle.macrocell_reader.specs.Inner.{numbers, inner_of, begins_with_number};
ghost use Rattle.macrocell_reader.specs.Nodes.{kept};

use crate::node::Node;
use text_lines::{first_blank, number, trim_start};

/// The inner node of a line: its level, and the numbers of its quadrants north west, north east,
/// south west and south east. A number that is too large for its type stays at the largest. None
/// where the line is not five numbers.
pub(crate) fn inner(line: &[u8]) -> Option<Node>
    ensures { result ≡ option_map kept (inner_of (numbers line.now)) }
{
    let (level, rest) = next_number(line)?;
    let (nw, rest) = next_number(rest)?;
    let (ne, rest) = next_number(rest)?;
    let (sw, rest) = next_number(rest)?;
    let (se, rest) = next_number(rest)?;
    if !trim_start(rest).is_empty() {
        return None;
    }
    Some(Node::Inner {
        level: level.min(u64::from(u8::MAX)) as u8,
        kids: [as_number(nw), as_number(ne), as_number(sw), as_number(se)],
    })
}

// The number of a node, or the largest `u32` if it is larger.
fn as_number(number: u64) -> u32
    ensures { result ≡ min number 4294967295 }
{
    number.min(u64::from(u32::MAX)) as u32
}

// The number at the front of a text, after blanks, and what stands after it. It goes up to the
// next blank, and stays at the largest `u64` if it is larger.
fn next_number(text: &[u8]) -> Option<(u64, &[u8])>
    ensures { MatchOption result (begins_with_number (numbers text.now) ≡ false)
        (λ found. (n : ℕ) × (numbers text.now ≡ Some n ∷ numbers found.1.now)
        × (found.0 ≡ capped n)) }
{
    let rest = trim_start(text);
    let length = field_length(rest);
    let value = number(&rest[..length])?;
    Some((value, &rest[length..]))
}

// How many bytes stand before the first blank, or how many there are if there is none.
fn field_length(text: &[u8]) -> usize
    ensures { result ≡ position_or_len is_blank text.now }
{
    first_blank(text).unwrap_or(text.len())
}
