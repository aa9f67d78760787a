//! A desk at work at its table: the book of squares that the recursion reads and writes.
ghost use Rattle.std.specs.Prelude.{◌≡◌, ◌<◌, ◌+◌, ◌-◌, All, IfErr, IfNone, IfOk, IfSome, IsErr, IsOk, MatchOption, OnErr, OnOk, Some};
ghost use Rattle.std.specs.List.{AllByRecursion};
ghost use Rattle.plane.specs.declared.cell.TheConstants.{HIGHEST_LEVEL};
ghost use Rattle.plane.specs.Square.{bits_plane};
ghost use Rattle.squares.specs.Book.{AddsResult, AddsSquares, AreQuarters, AreSubsquares, HasResult, IsEmpty, IsFuture, IsKnown, Keeps, KeepsResults, Learns, MayRefuse, Shows, joined_squares, nth, numbered};
ghost use Rattle.squares.specs.Overlaps.{AreOverlaps};
ghost use Rattle.table_core.specs.declared.shape.Kind.TheVariants.{Leaf};
ghost use Rattle.node_table.specs.Desks.{IsDeskOf, work_store};
ghost use Rattle.node_table.specs.Refusals.{HasNoRoom, HasNoRoomForOverlap, HasNoRoomForQuad, HasNoRoomForSubsquare};

use crate::desk::Desk;
use crate::table::NodeTable;
use plane::Refusal;
use rule_text::Rule;
use squares::{LEAF_LEVEL, Num, Sq, Squares};
use table_core::{Kind, parts};

/// A desk at work at its table. Its calls wait for nobody, take no memory and always return,
/// whatever other desks do meanwhile. `leaf`, `quad`, `nine` and `overlaps` refuse only
/// `NodesFull`, and only where the desk saw another word in each of the 256 slots of the way of a
/// word that they need; `leaf` and `quad` refuse wherever it saw that before the call, and what the
/// desk has seen it knows for good: what was refused once stays refused. `keep` refuses nothing.
#[derive(Drop)]
pub struct At<'t> {
    pub(crate) table: &'t NodeTable,
    pub(crate) desk: Desk,
    pub(crate) expansions: u64,
    ghost of_table: { IsDeskOf table.now desk },
}

pub(crate) fn square(level: u8, number: u32) -> Sq
    ensures { result ≡ numbered level number }
{
    Sq {
        level,
        num: Num(number),
    }
}

impl At<'_> {
    ghost use Rattle.node_table.specs.Desks.{Returns};
    ghost use Rattle.node_table.specs.DesksAtWork.{KnowsAllOf};

    /// The desk again, with all that it knows, and its number of expansions as it was.
    pub fn leave(self) -> Desk
        ensures desk { Returns (⟦<At<'static> as Squares>⟧.book self.entry) result }
        ensures grows { KnowsAllOf self.entry.desk result }
    {
        let At {
            table: _,
            desk,
            expansions,
        } = self;
        let Desk {
            seat,
            expansions: _,
        } = desk;
        Desk { seat, expansions }
    }
}

impl Squares for At<'_> {
    ghost use Rattle.node_table.specs.DesksAtWork.{GoesOn, book_here};

    ghost book = { book_here };

    fn rule(&self) -> &Rule {
        &self.table.key.rule
    }

    fn exponent(&self) -> u8 {
        self.table.key.exponent
    }

    fn read_bits(&mut self, sq: Sq) -> u64
        requires { IsKnown (book_here self.old) 3 sq }
        ensures value { Shows (book_here self.old) 3 (bits_plane result) sq }
        ensures grows { GoesOn self.old self.new }
        ensures adds { AddsSquares (book_here self.old) (book_here self.new) }
    {
        if sq.is_empty() {
            return 0;
        }
        self.look(sq.num.0)
    }

    fn read_parts(&mut self, sq: Sq) -> [Sq; 4]
        requires known { IsKnown (book_here self.old) sq.level sq }
        requires level { 3 < sq.level }
        ensures value { AreQuarters (book_here self.new) sq.level
            ((book_here self.old).cells sq) result }
        ensures grows { GoesOn self.old self.new }
        ensures adds { AddsSquares (book_here self.old) (book_here self.new) }
    {
        let (upper, lower) = self.read_halves(sq);
        [upper.left, upper.right, lower.left, lower.right]
    }

    fn leaf(&mut self, word: u64) -> Result<Sq, Refusal>
        ensures ok { IfOk result (Shows (book_here self.new) 3 (bits_plane word)) }
        ensures empty { word ≡ 0 → IsOk result }
        ensures refusal { IfErr result (MayRefuse (book_here self.new)) }
        ensures full { OnErr result (HasNoRoom self.new.table.now self.new.desk Leaf word) }
        ensures refused { HasNoRoom self.old.table.now self.old.desk Leaf word → IsErr result }
        ensures grows { GoesOn self.old self.new }
        ensures adds { AddsSquares (book_here self.old) (book_here self.new) }
    {
        if word == 0 {
            return Ok(Sq::empty(LEAF_LEVEL));
        }
        let Some(number) = self.number(Kind::Leaf, word) else {
            return Err(Refusal::NodesFull);
        };
        Ok(square(LEAF_LEVEL, number))
    }

    fn quad(&mut self, quarters: [Sq; 4]) -> Result<Sq, Refusal>
        requires level { (nth quarters 0).level < HIGHEST_LEVEL }
        requires known { AllByRecursion
            (IsKnown (book_here self.old) (nth quarters 0).level) quarters }
        ensures ok { IfOk result (Shows (book_here self.new) ((nth quarters 0).level + 1)
            (joined_squares (book_here self.old) (nth quarters 0).level quarters)) }
        ensures empty { AllByRecursion IsEmpty quarters → IsOk result }
        ensures refusal { IfErr result (MayRefuse (book_here self.new)) }
        ensures full { OnErr result
            (HasNoRoomForQuad self.new.table.now self.old.desk self.new.desk quarters) }
        ensures refused { HasNoRoomForQuad self.old.table.now self.old.desk self.old.desk quarters
            → IsErr result }
        ensures grows { GoesOn self.old self.new }
        ensures adds { AddsSquares (book_here self.old) (book_here self.new) }
    {
        let [nw, ne, sw, se] = quarters;
        self.prefetch_half(nw, ne);
        self.prefetch_half(sw, se);
        let upper = self.half(nw, ne)?;
        let lower = self.half(sw, se)?;
        self.whole(upper, lower)
    }

    fn nine(&mut self, sq: Sq) -> Result<[Sq; 9], Refusal>
        requires known { IsKnown (book_here self.old) sq.level sq }
        requires level { 4 < sq.level }
        ensures ok { IfOk result
            (AreSubsquares (book_here self.new) sq.level ((book_here self.old).cells sq)) }
        ensures refusal { IfErr result (MayRefuse (book_here self.new)) }
        ensures full { OnErr result (HasNoRoomForSubsquare self.new.table.now self.new.desk sq.level
            ((book_here self.old).cells sq)) }
        ensures grows { GoesOn self.old self.new }
        ensures adds { AddsSquares (book_here self.old) (book_here self.new) }
    {
        self.nine_by_halves(sq)
    }

    fn overlaps(&mut self, level: u8, nine: [Sq; 9]) -> Result<[Sq; 4], Refusal>
        requires known { All (IsKnown (book_here self.old) level) nine }
        requires level { level < HIGHEST_LEVEL }
        ensures ok { IfOk result (AreOverlaps (book_here self.new) level nine) }
        ensures refusal { IfErr result (MayRefuse (book_here self.new)) }
        ensures full { OnErr result (HasNoRoomForOverlap self.new.table.now self.new.desk nine) }
        ensures grows { GoesOn self.old self.new }
        ensures adds { AddsSquares (book_here self.old) (book_here self.new) }
    {
        self.overlaps_by_halves(level, nine)
    }

    fn recall(&mut self, sq: Sq) -> Option<Sq>
        requires known { IsKnown (book_here self.old) sq.level sq }
        requires level { 3 < sq.level }
        ensures some { IfSome result (IsFuture (book_here self.new) sq) }
        ensures none { IfNone result (¬ HasResult (book_here self.old) sq) }
        ensures empty { IsEmpty sq → result ≡ Some (numbered (sq.level - 1) 0) }
        ensures results { MatchOption result
            (KeepsResults (book_here self.old) (book_here self.new))
            (λ _. Learns (book_here self.old) (book_here self.new) sq) }
        ensures grows { GoesOn self.old self.new }
        ensures keeps { Keeps (book_here self.old) (book_here self.new) }
    {
        let level = sq.level - 1;
        if sq.is_empty() {
            return Some(Sq::empty(level));
        }
        let index = self.table.key.shape.result_index(sq.num.0);
        let word = self.ask(index);
        if word == 0 {
            return None;
        }
        let (_, number) = parts(word);
        Some(square(level, number))
    }

    fn keep(&mut self, sq: Sq, future: Sq) -> Result<(), Refusal>
        requires known { IsKnown (book_here self.old) sq.level sq }
        requires level { 3 < sq.level }
        requires future { IsFuture (book_here self.old) sq future }
        ensures kept { IsOk result }
        ensures ok { OnOk result (AddsResult (book_here self.old) (book_here self.new) sq) }
        ensures err { OnErr result (KeepsResults (book_here self.old) (book_here self.new)) }
        ensures refusal { IfErr result (MayRefuse (book_here self.new)) }
        ensures grows { GoesOn self.old self.new }
        ensures keeps { Keeps (book_here self.old) (book_here self.new) }
    {
        if !sq.is_empty() {
            let index = self.table.key.shape.result_index(sq.num.0);
            self.tell(index, future.num.0);
        }
        Ok(())
    }

    ghost is_book = { λ s.
        (s.desk.sound s.table.now.key s.of_table.same_key).book
        (work_store s.expansions s.table.now) };
}
