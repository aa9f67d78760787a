//! An RLE body in lines of at most 70 bytes.

ghost use Rattle.std.specs.Prelude.{◌≡◌, ℕ, ◌≤◌, List, [], ◌∷◌, ◌++◌, codes, length, OnErr, OnOk};
ghost use Rattle.arrayvec.specs.ArrayString.{array_string_len};
ghost use Rattle.plane.specs.Device.{AppendsBeginning, TellsFailure};
ghost use Rattle.pattern_writers.specs.Layout.{body_text, LaysOut};
ghost use Rattle.pattern_writers.specs.Output.{AppendsBuffered};

use super::items::Item;
use crate::output_block::{OutputBlock, put};
use arrayvec::ArrayString;
use plane::{Refusal, Sink};

// The most bytes that a line of a body has.
const LINE_LENGTH: usize = 70;

// Room for a line and its end.
const LINE_ROOM: usize = 71;

/// Writes the items and the `!`, in lines.
pub(crate) fn write_body<V: Sink>(
    file: &mut V,
    block: &mut OutputBlock,
    items: &[Item],
) -> Result<(), Refusal>
    ensures written { OnOk result (AppendsBuffered (V.taken file.old) block.old.items
        (V.taken file.new) block.new.items (body_text items.now)) }
    ensures beginning { OnErr result (AppendsBeginning (V.taken file.old) (V.taken file.new)
        (block.old.items ++ body_text items.now)) }
    ensures failure { TellsFailure (V.failure_count file.old) (V.failure_count file.new) result }
{
    let mut line = ArrayString::new();
    for item in items {
        add_to_line(file, block, &mut line, item.text().as_str())?;
    }
    add_to_line(file, block, &mut line, "!")?;
    end_line(file, block, &mut line)
}

// Puts a piece on the line, or writes the line out and begins a new one with the piece.
fn add_to_line<V: Sink>(
    file: &mut V,
    block: &mut OutputBlock,
    line: &mut ArrayString<LINE_ROOM>,
    piece: &str,
) -> Result<(), Refusal>
    requires line { array_string_len line.old ≤ 70 }
    requires piece { length piece.now ≤ 70 }
    ensures line { OnOk result (array_string_len line.new ≤ 70) }
    ensures laid { OnOk result ((out : List ℕ)
        × AppendsBuffered (V.taken file.old) block.old.items (V.taken file.new) block.new.items out
        × LaysOut line.old.bytes (piece.now ∷ []) line.new.bytes out) }
    ensures beginning { OnErr result ((out : List ℕ)
        × AppendsBeginning (V.taken file.old) (V.taken file.new) (block.old.items ++ out)
        × LaysOut line.old.bytes (piece.now ∷ []) piece.now out) }
    ensures failure { TellsFailure (V.failure_count file.old) (V.failure_count file.new) result }
{
    if line.len() + piece.len() > LINE_LENGTH {
        end_line(file, block, line)?;
    }
    line.push_str(piece);
    Ok(())
}

// Writes the line out, and empties it.
fn end_line<V: Sink>(
    file: &mut V,
    block: &mut OutputBlock,
    line: &mut ArrayString<LINE_ROOM>,
) -> Result<(), Refusal>
    requires { array_string_len line.old ≤ 70 }
    ensures written { OnOk result (AppendsBuffered (V.taken file.old) block.old.items
        (V.taken file.new) block.new.items (line.old.bytes ++ codes "\n")) }
    ensures beginning { OnErr result (AppendsBeginning (V.taken file.old) (V.taken file.new)
        (block.old.items ++ (line.old.bytes ++ codes "\n"))) }
    ensures emptied { OnOk result (line.new.bytes ≡ []) }
    ensures failure { TellsFailure (V.failure_count file.old) (V.failure_count file.new) result }
{
    line.push_str("\n");
    put(file, block, line.as_str().as_bytes())?;
    line.clear();
    Ok(())
}
