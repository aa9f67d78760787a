//! The runs of live cells in a row of a square.

ghost use Rattle.std.specs.Prelude.{◌≡◌, ◌≤◌, ◌<◌, ◌^◌, ◌+◌, ◌+ℤ◌, ◌≤ℤ◌, ◌<ℤ◌, ◌↔◌, ℤ, pos, IfOk, IsOkUnless, IsTrue, OnOk, true};
ghost use Rattle.plane.specs.Centred.{centred};
ghost use Rattle.plane.specs.Square.{bits_plane};
ghost use Rattle.squares.specs.Book.{IsKnown};
ghost use Rattle.squares.specs.declared.sq.TheConstants.{HIGHEST_ROOT_LEVEL};
ghost use Rattle.viewport.specs.RowRuns.{AddsCells, AreRowRuns, EndBy, cells_at, end_of, is_in_some, run_cells};

use crate::halves::half_with_row;
use crate::sides::{offset_in, signed_half_side};
use plane::Refusal;
use squares::{LEAF_LEVEL, Look, Sq, half_side};
use std::alloc::{AllocError, Global};

/// The runs of live cells in row y of a square of a level up to 63, from left to right, each as
/// long as it can be: its first cell, and how many there are. Empty squares are passed over.
/// `NoMemory` where there is no room for one more run.
pub fn row_runs<B: Look>(
    alloc: Global,
    book: &B,
    sq: Sq,
    y: i64,
) -> Result<Vec<(i64, u64)>, Refusal>
    requires known { IsKnown (B.book book.now) sq.level sq }
    requires level { sq.level ≤ HIGHEST_ROOT_LEVEL }
    ensures ok { IfOk result (λ runs.
        AreRowRuns (centred sq.level ((B.book book.now).cells sq)) y runs.items) }
    ensures memory { IsOkUnless result Refusal.NoMemory }
{
    let mut runs = Vec::new(alloc);
    let Some(row) = offset_in(y, sq.level) else {
        return Ok(runs);
    };
    add_row(book, sq, -signed_half_side(sq.level), row, &mut runs)?;
    Ok(runs)
}

// Adds the cells of a row of the square that begins at left; the runs so far end there or before.
fn add_row<B: Look>(
    book: &B,
    sq: Sq,
    left: i64,
    y: u64,
    runs: &mut Vec<(i64, u64)>,
) -> Result<(), AllocError>
    requires known { IsKnown (B.book book.now) sq.level sq }
    requires level { sq.level ≤ HIGHEST_ROOT_LEVEL }
    requires row { y < 2 ^ sq.level }
    requires room { (left +ℤ pos (2 ^ sq.level)) ≤ℤ pos (2 ^ 62) }
    requires before { EndBy left runs.old.items }
    ensures ok { OnOk result (AddsCells left (2 ^ sq.level)
        (cells_at ((B.book book.now).cells sq) left y) runs.old.items runs.new.items) }
{
    if sq.is_empty() {
        return Ok(());
    }
    if sq.level == LEAF_LEVEL {
        return add_leaf_row(book.bits(sq), left, y, runs);
    }
    let (first, second, row) = half_with_row(book, sq, y);
    let middle = left + signed_half_side(sq.level);
    add_row(book, first, left, row, runs)?;
    if second == first && is_covered(runs, left, middle) {
        return add_run(middle, half_side(sq.level), runs);
    }
    add_row(book, second, middle, row, runs)
}

// Whether the last run has all cells from one place up to another, with which it ends.
fn is_covered(runs: &[(i64, u64)], left: i64, end: i64) -> bool
    ensures { IsTrue result → (x : ℤ) → left ≤ℤ x → x <ℤ end → is_in_some runs.now x ≡ true }
{
    match runs.last() {
        Some(last) => last.0 <= left && ends_at(*last, end),
        None => false,
    }
}

// Adds the cells of a row of the leaf that begins at left; the runs so far end there or before.
fn add_leaf_row(word: u64, left: i64, y: u64, runs: &mut Vec<(i64, u64)>) -> Result<(), AllocError>
    requires row { y < 8 }
    requires room { (left +ℤ pos 8) ≤ℤ pos (2 ^ 62) }
    requires before { EndBy left runs.old.items }
    ensures ok { OnOk result (AddsCells left 8
        (cells_at (bits_plane word) left y) runs.old.items runs.new.items) }
{
    let mut rest = (word >> (8 * y)) & 255;
    let mut x = 0;
    while rest != 0 {
        let dead = rest.trailing_zeros();
        let live = (rest >> dead).trailing_ones();
        add_run(left + i64::from(x + dead), u64::from(live), runs)?;
        rest = rest >> dead >> live;
        x += dead + live;
    }
    Ok(())
}

// Adds a run behind the others; where the last one ends at its first cell they become one.
fn add_run(first: i64, count: u64, runs: &mut Vec<(i64, u64)>) -> Result<(), AllocError>
    requires some { 0 < count }
    requires room { (first +ℤ pos count) ≤ℤ pos (2 ^ 62) }
    requires before { EndBy first runs.old.items }
    ensures ok { OnOk result (AddsCells first count
        (run_cells first count) runs.old.items runs.new.items) }
{
    if let Some(last) = runs.last_mut() {
        if ends_at(*last, first) {
            *last = longer(*last, count);
            return Ok(());
        }
    }
    runs.push((first, count))?;
    Ok(())
}

// Whether the run ends where another one begins.
fn ends_at(run: (i64, u64), first: i64) -> bool
    ensures { IsTrue result ↔ (end_of run ≡ first) }
{
    run.0.checked_add_unsigned(run.1) == Some(first)
}

// The run with so many cells more at its end.
fn longer(run: (i64, u64), count: u64) -> (i64, u64)
    requires { (end_of run +ℤ pos count) ≤ℤ pos (2 ^ 62) }
    ensures { result ≡ (run.0, run.1 + count) }
{
    (run.0, run.1 + count)
}
