//! How squares are read: at a book that makes squares, or where they stand and none is made.

ghost use Rattle.plane.specs.Square.{bits_plane};
ghost use Rattle.std.specs.Prelude.{◌<◌};
ghost use Rattle.squares.specs.Book.{AddsSquares, AreQuarters, Book, IsBook, IsKnown, Shows};

use crate::book::{Look, Squares};
use crate::sq::Sq;

/// A book whose squares are read. It goes on knowing what it knew.
pub trait Reading {
    // What is known.
    ghost book: { Self → Book };

    /// The cells of a square of level 3: bit 8y + x is the cell (x, y).
    fn cells_of(&mut self, sq: Sq) -> u64
        requires { IsKnown (book self.old) 3 sq }
        ensures value { Shows (book self.old) 3 (bits_plane result) sq }
        ensures adds { AddsSquares (book self.old) (book self.new) };

    /// The quarters of a square above level 3: upper left, upper right, lower left, lower right.
    fn quarters_of(&mut self, sq: Sq) -> [Sq; 4]
        requires known { IsKnown (book self.old) sq.level sq }
        requires level { 3 < sq.level }
        ensures value { AreQuarters (book self.new) sq.level ((book self.old).cells sq) result }
        ensures adds { AddsSquares (book self.old) (book self.new) };

    ghost is_book: { (s : Self) → IsBook (book s) };
}

impl<S: Squares> Reading for S {
    ghost book = { S.book };

    fn cells_of(&mut self, sq: Sq) -> u64 {
        self.read_bits(sq)
    }

    fn quarters_of(&mut self, sq: Sq) -> [Sq; 4] {
        self.read_parts(sq)
    }

    ghost is_book = { S.is_book };
}

/// Squares that are read where they stand, and where none is made.
#[derive(Drop)]
pub struct Looked<'a, L>(pub &'a L);

impl<L: Look> Reading for Looked<'_, L> {
    ghost book = { λ looked. L.book looked.0.now };

    fn cells_of(&mut self, sq: Sq) -> u64 {
        self.0.bits(sq)
    }

    fn quarters_of(&mut self, sq: Sq) -> [Sq; 4] {
        self.0.parts(sq)
    }

    ghost is_book = { λ looked. L.is_book looked.0.now };
}
