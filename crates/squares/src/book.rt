//! What a book of squares can be asked: to read squares, and to make them.

ghost use Rattle.std.specs.Prelude.{◌≡◌, ◌<◌, ◌+◌, ◌-◌, IfOk, OnOk, OnErr, IfErr, IfSome, IfNone, IsOk, Some, MatchOption, All};
ghost use Rattle.std.specs.List.{AllByRecursion};
ghost use Rattle.plane.specs.declared.cell.TheConstants.{HIGHEST_LEVEL};
ghost use Rattle.plane.specs.Square.{bits_plane};
ghost use Rattle.squares.specs.Book.{AddsResult, AddsSquares, AreQuarters, AreSubsquares, Book, HasResult, IsBook, IsEmpty, IsFuture, IsKnown, Keeps, KeepsResults, Learns, MayRefuse, Shows, joined_squares, nth, numbered};
ghost use Rattle.squares.specs.Overlaps.{AreOverlaps};

use crate::sq::Sq;
use plane::Refusal;
use rule_text::Rule;

/// Squares that can be read, and where none is made. Number 0 is known at each level, and two known
/// squares of one level have one number exactly if they have the same cells.
pub trait Look {
    // What is known.
    ghost book: { Self → Book };

    /// The cells of a square of level 3: bit 8y + x is the cell (x, y).
    fn bits(&self, sq: Sq) -> u64
        requires { IsKnown (book self.now) 3 sq }
        ensures { Shows (book self.now) 3 (bits_plane result) sq };

    /// The quarters of a square above level 3: upper left, upper right, lower left, lower right.
    fn parts(&self, sq: Sq) -> [Sq; 4]
        requires known { IsKnown (book self.now) sq.level sq }
        requires level { 3 < sq.level }
        ensures { AreQuarters (book self.now) sq.level ((book self.now).cells sq) result };

    ghost is_book: { (s : Self) → IsBook (book s) };
}

/// A book of squares that grows, and that keeps the results of squares under one rule and exponent.
/// All that is known stays known, through refusals too. A call refuses `NoMemory` only where the
/// book takes memory, and `NodesFull` only where the book is full, and then it stays full. An
/// implementor writes the first eight calls; `nine` and `overlaps` are made of them.
pub trait Squares {
    // What is known.
    ghost book: { Self → Book };

    /// The rule of the results.
    fn rule(&self) -> &Rule
        ensures { result.now ≡ (book self.now).rule };

    /// The exponent of the results: each is at most 2^exponent generations on.
    fn exponent(&self) -> u8
        ensures { result ≡ (book self.now).exponent };

    /// The cells of a square of level 3: bit 8y + x is the cell (x, y).
    fn read_bits(&mut self, sq: Sq) -> u64
        requires { IsKnown (book self.old) 3 sq }
        ensures value { Shows (book self.old) 3 (bits_plane result) sq }
        ensures adds { AddsSquares (book self.old) (book self.new) };

    /// The quarters of a square above level 3: upper left, upper right, lower left, lower right.
    fn read_parts(&mut self, sq: Sq) -> [Sq; 4]
        requires known { IsKnown (book self.old) sq.level sq }
        requires level { 3 < sq.level }
        ensures value { AreQuarters (book self.new) sq.level ((book self.old).cells sq) result }
        ensures adds { AddsSquares (book self.old) (book self.new) };

    /// The square of level 3 with these cells. That without a live cell is never refused.
    fn leaf(&mut self, word: u64) -> Result<Sq, Refusal>
        ensures ok { IfOk result (Shows (book self.new) 3 (bits_plane word)) }
        ensures empty { word ≡ 0 → IsOk result }
        ensures refusal { IfErr result (MayRefuse (book self.new)) }
        ensures adds { AddsSquares (book self.old) (book self.new) };

    /// The square with these quarters: upper left, upper right, lower left, lower right. That of
    /// four empty ones is never refused.
    fn quad(&mut self, quarters: [Sq; 4]) -> Result<Sq, Refusal>
        requires level { (nth quarters 0).level < HIGHEST_LEVEL }
        requires known { AllByRecursion (IsKnown (book self.old) (nth quarters 0).level) quarters }
        ensures ok { IfOk result (Shows (book self.new) ((nth quarters 0).level + 1)
            (joined_squares (book self.old) (nth quarters 0).level quarters)) }
        ensures empty { AllByRecursion IsEmpty quarters → IsOk result }
        ensures refusal { IfErr result (MayRefuse (book self.new)) }
        ensures adds { AddsSquares (book self.old) (book self.new) };

    /// The result of a square, if it is known: its centre after 2^exponent generations, or after
    /// 2^(level - 2) if that is less. The result of an empty square is known to be empty.
    fn recall(&mut self, sq: Sq) -> Option<Sq>
        requires known { IsKnown (book self.old) sq.level sq }
        requires level { 3 < sq.level }
        ensures some { IfSome result (IsFuture (book self.new) sq) }
        ensures none { IfNone result (¬ HasResult (book self.old) sq) }
        ensures empty { IsEmpty sq → result ≡ Some (numbered (sq.level - 1) 0) }
        ensures results { MatchOption result
            (KeepsResults (book self.old) (book self.new))
            (λ _. Learns (book self.old) (book self.new) sq) }
        ensures keeps { Keeps (book self.old) (book self.new) };

    /// Keeps the second square as the result of the first. For an empty square there is nothing
    /// to do.
    fn keep(&mut self, sq: Sq, future: Sq) -> Result<(), Refusal>
        requires known { IsKnown (book self.old) sq.level sq }
        requires level { 3 < sq.level }
        requires future { IsFuture (book self.old) sq future }
        ensures ok { OnOk result (AddsResult (book self.old) (book self.new) sq) }
        ensures err { OnErr result (KeepsResults (book self.old) (book self.new)) }
        ensures refusal { IfErr result (MayRefuse (book self.new)) }
        ensures keeps { Keeps (book self.old) (book self.new) };

    /// The nine overlapping squares of a square above level 4, row by row from the top, each with
    /// half its side: they begin at 0, a quarter and a half of its side in each direction. A book
    /// that can make them with fewer searches has a body of its own.
    fn nine(&mut self, sq: Sq) -> Result<[Sq; 9], Refusal>
        requires known { IsKnown (book self.old) sq.level sq }
        requires level { 4 < sq.level }
        ensures ok { IfOk result
            (AreSubsquares (book self.new) sq.level ((book self.old).cells sq)) }
        ensures refusal { IfErr result (MayRefuse (book self.new)) }
        ensures adds { AddsSquares (book self.old) (book self.new) }
    {
        let [nw, ne, sw, se] = self.read_parts(sq);
        let [_, nw_ne, nw_sw, nw_se] = self.read_parts(nw);
        let [ne_nw, _, ne_sw, ne_se] = self.read_parts(ne);
        let [sw_nw, sw_ne, _, sw_se] = self.read_parts(sw);
        let [se_nw, se_ne, se_sw, _] = self.read_parts(se);
        let upper = self.quad([nw_ne, ne_nw, nw_se, ne_sw])?;
        let left = self.quad([nw_sw, nw_se, sw_nw, sw_ne])?;
        let middle = self.quad([nw_se, ne_sw, sw_ne, se_nw])?;
        let right = self.quad([ne_sw, ne_se, se_nw, se_ne])?;
        let lower = self.quad([sw_ne, se_nw, sw_se, se_sw])?;
        Ok([nw, upper, ne, left, middle, right, sw, lower, se])
    }

    /// Of nine squares of one level in three rows, the four that neighbours make: those at the
    /// upper left, the upper right, the lower left and the lower right. A book that can make them
    /// with fewer searches has a body of its own.
    fn overlaps(&mut self, level: u8, nine: [Sq; 9]) -> Result<[Sq; 4], Refusal>
        requires known { All (IsKnown (book self.old) level) nine }
        requires level { level < HIGHEST_LEVEL }
        ensures ok { IfOk result (AreOverlaps (book self.new) level nine) }
        ensures refusal { IfErr result (MayRefuse (book self.new)) }
        ensures adds { AddsSquares (book self.old) (book self.new) }
    {
        let [nw, upper, ne, left, middle, right, sw, lower, se] = nine;
        let upper_left = self.quad([nw, upper, left, middle])?;
        let upper_right = self.quad([upper, ne, middle, right])?;
        let lower_left = self.quad([left, middle, sw, lower])?;
        let lower_right = self.quad([middle, right, lower, se])?;
        Ok([upper_left, upper_right, lower_left, lower_right])
    }

    ghost is_book: { (s : Self) → IsBook (book s) };
}
