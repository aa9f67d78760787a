//! What holds of every body and of every text that is accepted.

ghost use Rattle.std.specs.Prelude.{◌≡◌, ◌≤◌, ℕ, ℤ, List, length, Ok, true};
ghost use Rattle.plane.specs.Listing.{IsListing};
ghost use Rattle.plane.specs.Range.{IsInRange};
ghost use Rattle.plane.specs.declared.cell.Cell.{Cell};
ghost use Rattle.plane.specs.Limits.{most_live_cells};
ghost use Rattle.rle_reader.specs.declared.body.LocatedByte.{LocatedByte};
ghost use Rattle.rle_reader.specs.Items.{Items, AreItemsOf, items_of};
ghost use Rattle.rle_reader.specs.Meaning.{Meaning, StayInRange, judged, live_cells, live_plane};
ghost use Rattle.rle_reader.specs.Slices.{AreSlices};
ghost use Rattle.rle_reader.specs.State.{start_at};

/// A body is cut into items, digits that are left over and an end in exactly one way.
pub fn one_cut()
    ensures cut { (body : List LocatedByte) → AreItemsOf body (items_of body) }
    ensures only { (body : List LocatedByte) (found : Items) →
        AreItemsOf body found → found ≡ items_of body }
{}

/// The items of an accepted text stay in the range, their live cells are no more than a file may
/// have, each live cell lies in the range, and a listing of its live cells has no more than a file
/// may have.
pub fn accepted_in_range()
    ensures items { (text : List ℕ) (meaning : Meaning) → judged text ≡ Ok meaning →
        StayInRange meaning.pos.x (start_at meaning.pos) meaning.runs }
    ensures live_cells { (text : List ℕ) (meaning : Meaning) → judged text ≡ Ok meaning →
        live_cells meaning.runs ≤ most_live_cells }
    ensures cells { (text : List ℕ) (meaning : Meaning) → judged text ≡ Ok meaning →
        (x y : ℤ) → live_plane meaning x y ≡ true → IsInRange (record { y = y; x = x }) }
    ensures listing { (text : List ℕ) (meaning : Meaning) (cells : List Cell) →
        judged text ≡ Ok meaning → IsListing cells (live_plane meaning) →
        length cells ≤ most_live_cells }
{}

/// Each item of an accepted text is the slice of the text from its first digit, or from its tag if
/// it has no count, to its tag. No slice begins before the one before it ends, so their places
/// rise.
pub fn items_are_slices()
    ensures { (text : List ℕ) (meaning : Meaning) → judged text ≡ Ok meaning →
        AreSlices text 0 meaning.runs }
{}
