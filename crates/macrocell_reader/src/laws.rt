//! What holds of every leaf line and of every text.

ghost use Rattle.std.specs.Prelude.{◌≡◌, ◌<◌, ◌+◌, ◌*◌, ℕ, ℤ, List, [], Ok, Err, Some, IsSome, map, true};
ghost use Rattle.plane.specs.Range.{IsInRange};
ghost use Rattle.plane.specs.Square.{bit};
ghost use Rattle.plane.specs.declared.fault.Fault.{Fault};
ghost use Rattle.text_lines.specs.Bytes.{trimmed_end};
ghost use Rattle.text_lines.specs.Lines.{StandIn};
ghost use Rattle.macrocell_reader.specs.Leaf.{leaf_of, rows_of, is_live_at};
ghost use Rattle.macrocell_reader.specs.Meaning.{Meaning, judged};
ghost use Rattle.macrocell_reader.specs.NodeFaults.{StandInOrder};
ghost use Rattle.macrocell_reader.specs.Nodes.{line_of};
ghost use Rattle.macrocell_reader.specs.Planes.{live_plane};

/// Bit `8 * y + x` of a leaf is the cell in column x of row y of its line.
pub fn leaf_cells()
    ensures { (line : List ℕ) (bits : ℕ) → leaf_of line ≡ Some bits → (x y : ℕ) → x < 8 → y < 8 →
        bit bits (8 * y + x) ≡ is_live_at (rows_of (trimmed_end line)) x y }
{}

/// The nodes of an accepted text stand in order, and each of its live cells lies in the range.
pub fn accepted_in_range()
    ensures nodes { (text : List ℕ) (meaning : Meaning) → judged text ≡ Ok meaning →
        StandInOrder [] (map (λ line. line.node) meaning.nodes) }
    ensures cells { (text : List ℕ) (meaning : Meaning) → judged text ≡ Ok meaning →
        (x y : ℤ) → live_plane meaning x y ≡ true → IsInRange (record { y = y; x = x }) }
{}

/// A refused text has a faulty line, so it is never refused as memory is, which has no place.
pub fn faults_have_places()
    ensures { (text : List ℕ) (fault : Fault) → judged text ≡ Err fault → IsSome fault.place }
{}

/// Each node line of an accepted text is the slice of the text that begins at its place, and the
/// places rise.
pub fn node_lines_are_slices()
    ensures { (text : List ℕ) (meaning : Meaning) → judged text ≡ Ok meaning →
        StandIn text 0 (map line_of meaning.nodes) }
{}
