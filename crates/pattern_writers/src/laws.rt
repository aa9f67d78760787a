//! What holds of the text of every pattern.

ghost use Rattle.std.specs.Prelude.{◌≡◌, ℕ, ℤ, List};
ghost use Rattle.plane.specs.CellSet.{IsCellSet};
ghost use Rattle.plane.specs.Listing.{IsListing};
ghost use Rattle.plane.specs.Plane.{Plane};
ghost use Rattle.plane.specs.declared.cell.Cell.{Cell};
ghost use Rattle.rule_text.specs.CountRule.{CountRule};
ghost use Rattle.pattern_writers.specs.McText.{mc_text};
ghost use Rattle.pattern_writers.specs.Reading.{FitsMc, IsReadFromMc, IsReadFromRle, IsReadable};
ghost use Rattle.pattern_writers.specs.RleText.{rle_text};

/// The text of a pattern depends only on its live cells.
pub fn same_text()
    ensures { (comments : List (List ℕ)) (rule : CountRule) (generation : ℕ)
        (plane other : Plane) (cells others : List Cell) →
        ((x y : ℤ) → plane x y ≡ other x y) → IsListing cells plane → IsListing others other →
        rle_text comments rule generation cells ≡ rle_text comments rule generation others }
{}

/// No two sets of cells have one text, with the same comments, rule and generation.
pub fn distinct_texts()
    ensures { (comments : List (List ℕ)) (rule : CountRule) (generation : ℕ)
        (cells others : List Cell) → IsCellSet cells → IsCellSet others →
        rle_text comments rule generation cells ≡ rle_text comments rule generation others →
        cells ≡ others }
{}

/// The text of a pattern of at most 2^28 cells, all in the range, is accepted, and read as the same
/// cells, the same rule and generation, and the same comments where none ends with a CR.
pub fn rle_read_back()
    ensures { (comments : List (List ℕ)) (rule : CountRule) (generation : ℕ)
        (plane : Plane) (cells : List Cell) → IsReadable comments generation plane cells →
        IsReadFromRle comments rule generation plane (rle_text comments rule generation cells) }
{}

/// The text of a pattern as a macrocell file of fewer than 2^32 nodes is accepted, and read as the
/// same cells, the same rule and generation, and the same comments where none ends with a CR.
pub fn macrocell_read_back()
    ensures { (comments : List (List ℕ)) (rule : CountRule) (generation level : ℕ)
        (plane : Plane) → FitsMc comments generation level plane →
        IsReadFromMc comments rule generation plane (mc_text comments rule generation level plane) }
{}
