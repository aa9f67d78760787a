//! Rules, books and squares that several examples begin with.

ghost use Rattle.std.specs.Prelude.{◌≤◌, IfOk};
ghost use Rattle.squares.specs.Book.{IsKnown};

use crate::tests::places::{Place, cells_at};
use plane::{CellSet, Refusal};
use rule_text::Rule;
use squares::{PlainBook, Sq, Squares, cells_to_square};
use std::alloc::Global;

pub(crate) fn rule_of(text: &str) -> Result<Rule, Refusal> {
    match Rule::read(text.as_bytes()) {
        Ok(rule) => Ok(rule),
        Err(_) => Err(Refusal::BadRule),
    }
}

pub(crate) fn book_of(alloc: Global, text: &str, exponent: u8) -> Result<PlainBook, Refusal> {
    Ok(PlainBook::new(alloc, rule_of(text)?, exponent))
}

/// The square of the cells around (0,0).
pub(crate) fn root_of_cells<S: Squares>(
    alloc: Global,
    book: &mut S,
    cells: &CellSet,
) -> Result<Sq, Refusal>
    ensures known { IfOk result (λ sq. IsKnown (S.book book.new) sq.level sq) }
    ensures level { IfOk result (λ sq. (4 ≤ sq.level) × (sq.level ≤ 63)) }
{
    cells_to_square(alloc, book, cells)
}

/// The square around (0,0) of the cells at these places.
pub(crate) fn root_at<S: Squares>(
    alloc: Global,
    book: &mut S,
    places: &[Place],
) -> Result<Sq, Refusal>
    ensures known { IfOk result (λ sq. IsKnown (S.book book.new) sq.level sq) }
    ensures level { IfOk result (λ sq. (4 ≤ sq.level) × (sq.level ≤ 63)) }
{
    let cells = cells_at(alloc, places)?;
    root_of_cells(alloc, book, &cells)
}
