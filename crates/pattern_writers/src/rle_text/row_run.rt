//! The runs of live cells in some rows.

ghost use Rattle.std.specs.Prelude.{◌≡◌, ◌≤◌, ◌+ℤ◌, pos, FitsSigned, IfOk, OnOk};
ghost use Rattle.std.specs.Int.{w64};
ghost use Rattle.squares.specs.Book.{IsKnown};
ghost use Rattle.pattern_writers.specs.Items.{next_cell};
ghost use Rattle.pattern_writers.specs.RleText.{HasRuns};
ghost use Rattle.pattern_writers.specs.RowRuns.{AddsRow, rows_between, run_in};
ghost use Rattle.squares.specs.Roots.{square_plane};
ghost use Rattle.squares.specs.declared.sq.TheConstants.{HIGHEST_ROOT_LEVEL};
ghost use Rattle.viewport.specs.Rows.{IsFirstRow};

use plane::Cell;
use squares::{Look, Sq};
use std::alloc::{AllocError, Global};
use viewport::first_row;

/// Live cells side by side in a row.
#[derive(Clone, Copy)]
pub(crate) struct RowRun {
    pub row: i64,
    // The column of the first cell.
    pub first: i64,
    // The column after the last cell.
    pub end: i64,
}

impl RowRun {
    // The run of a row, from its first column and its length.
    fn in_row(row: i64, first: i64, count: u64) -> Self
        requires { FitsSigned w64 (first +ℤ pos count) }
        ensures { result ≡ run_in row (first, count) }
    {
        RowRun {
            row,
            first,
            end: first.saturating_add_unsigned(count),
        }
    }

    /// The cell after the last.
    pub(crate) fn next_cell(&self) -> Cell
        ensures { result ≡ next_cell self.now }
    {
        Cell {
            y: self.row,
            x: self.end,
        }
    }
}

/// The longest runs of a square's cells in the rows from `from` to before `end`, row by row and
/// from left to right.
pub(crate) fn runs_between<B: Look>(
    alloc: Global,
    book: &B,
    sq: Sq,
    from: i64,
    end: i64,
) -> Result<Vec<RowRun>, AllocError>
    requires known { IsKnown (B.book book.now) sq.level sq }
    requires level { sq.level ≤ HIGHEST_ROOT_LEVEL }
    ensures { IfOk result (λ runs.
        HasRuns (rows_between from end (square_plane (B.book book.now) sq)) runs.items) }
{
    let mut runs = Vec::new(alloc);
    let mut next = next_row(book, sq, from, end);
    while let Some(row) = next {
        add_row(alloc, book, sq, row, &mut runs)?;
        next = next_row(book, sq, row + 1, end);
    }
    Ok(runs)
}

// The first row with a live cell among those from `from` to before `end`.
fn next_row<B: Look>(book: &B, sq: Sq, from: i64, end: i64) -> Option<i64>
    requires known { IsKnown (B.book book.now) sq.level sq }
    requires level { sq.level ≤ HIGHEST_ROOT_LEVEL }
    ensures { IsFirstRow (rows_between from end (square_plane (B.book book.now) sq)) from result }
{
    let row = first_row(book, sq, from)?;
    if row < end { Some(row) } else { None }
}

// Adds the runs of a row.
fn add_row<B: Look>(
    alloc: Global,
    book: &B,
    sq: Sq,
    row: i64,
    runs: &mut Vec<RowRun>,
) -> Result<(), AllocError>
    requires known { IsKnown (B.book book.now) sq.level sq }
    requires level { sq.level ≤ HIGHEST_ROOT_LEVEL }
    ensures { OnOk result
        (AddsRow (square_plane (B.book book.now) sq) row runs.old.items runs.new.items) }
{
    let Ok(found) = viewport::row_runs(alloc, book, sq, row) else {
        return Err(AllocError);
    };
    for run in &found {
        runs.push(RowRun::in_row(row, run.0, run.1))?;
    }
    Ok(())
}
