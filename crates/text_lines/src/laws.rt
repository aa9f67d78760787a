//! What holds of the lines of every text.

ghost use Rattle.std.specs.Prelude.{ℕ, List};
ghost use Rattle.text_lines.specs.Lines.{StandIn, lines};

/// Each line is the slice of its text that begins at its place, and the places rise.
pub fn lines_are_slices()
    ensures { (text : List ℕ) → StandIn text 0 (lines 0 text) }
{}
