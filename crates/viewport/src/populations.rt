//! How many live cells a square has.

ghost use Rattle.std.specs.Prelude.{◌≡◌, ◌≤◌, ◌<◌, IfOk, IsOkUnless};
ghost use Rattle.plane.specs.Centred.{centred};
ghost use Rattle.plane.specs.Square.{bits_plane};
ghost use Rattle.squares.specs.Book.{AddsSquares, IsKnown};
ghost use Rattle.squares.specs.declared.sq.TheConstants.{HIGHEST_ROOT_LEVEL};
ghost use Rattle.viewport.specs.Population.{AreCounts, HasPopulation, IsCount, cell_count};

use plane::Refusal;
use squares::{LEAF_LEVEL, Look, Looked, Reading, Sq};
use std::alloc::{AllocError, Global};
use std::collections::HashMap;

/// The numbers of live cells of squares, by level and number.
pub(crate) type Counts = HashMap<(u8, u32), u128>;

/// The lowest level of which counts and gaps are noted. Finding that of a lower square again costs
/// no more than its note.
pub(crate) const LOWEST_NOTED: u8 = 6;

/// How many live cells a square of a level up to 63 has: up to 2^126. Each number above level 5 is
/// counted once. `NoMemory` where there is no room for one more count.
pub fn population<L: Look>(alloc: Global, look: &L, sq: Sq) -> Result<u128, Refusal>
    requires known { IsKnown (L.book look.now) sq.level sq }
    requires level { sq.level ≤ HIGHEST_ROOT_LEVEL }
    ensures ok { IfOk result (HasPopulation (centred sq.level ((L.book look.now).cells sq))) }
    ensures memory { IsOkUnless result Refusal.NoMemory }
{
    let mut counts = HashMap::new(alloc);
    Ok(count(&mut Looked(look), sq, &mut counts)?)
}

/// How many live cells a square of a level up to 63 has, counted at a book that is read. The book
/// goes on knowing what it knew. `NoMemory` where there is no room for one more count.
pub fn population_at<R: Reading>(alloc: Global, book: &mut R, sq: Sq) -> Result<u128, Refusal>
    requires known { IsKnown (R.book book.old) sq.level sq }
    requires level { sq.level ≤ HIGHEST_ROOT_LEVEL }
    ensures ok { IfOk result (HasPopulation (centred sq.level ((R.book book.old).cells sq))) }
    ensures memory { IsOkUnless result Refusal.NoMemory }
    ensures adds { AddsSquares (R.book book.old) (R.book book.new) }
{
    let mut counts = HashMap::new(alloc);
    Ok(count(book, sq, &mut counts)?)
}

/// How many live cells the square has, by the counts that are known; it adds what it finds to them.
#[cycle(count)]
pub(crate) fn count<R: Reading>(
    from: &mut R,
    sq: Sq,
    counts: &mut Counts,
) -> Result<u128, AllocError>
    requires known { IsKnown (R.book from.old) sq.level sq }
    requires level { sq.level ≤ HIGHEST_ROOT_LEVEL }
    requires counted { AreCounts (R.book from.old) counts.old }
    ensures ok { IfOk result (IsCount (R.book from.old) sq) }
    ensures counted { AreCounts (R.book from.new) counts.new }
    ensures adds { AddsSquares (R.book from.old) (R.book from.new) }
{
    if sq.is_empty() {
        return Ok(0);
    }
    if sq.level == LEAF_LEVEL {
        return Ok(leaf_count(from.cells_of(sq)));
    }
    if sq.level < LOWEST_NOTED {
        return count_quarters(from, sq, counts);
    }
    let key = (sq.level, sq.num.0);
    if let Some(known) = counts.get(&key) {
        return Ok(*known);
    }
    let whole = count_quarters(from, sq, counts)?;
    counts.insert(key, whole)?;
    Ok(whole)
}

// How many live cells the quarters of a square have.
#[cycle(count)]
fn count_quarters<R: Reading>(from: &mut R, sq: Sq, counts: &mut Counts) -> Result<u128, AllocError>
    requires known { IsKnown (R.book from.old) sq.level sq }
    requires low { 3 < sq.level }
    requires high { sq.level ≤ HIGHEST_ROOT_LEVEL }
    requires counted { AreCounts (R.book from.old) counts.old }
    ensures ok { IfOk result (IsCount (R.book from.old) sq) }
    ensures counted { AreCounts (R.book from.new) counts.new }
    ensures adds { AddsSquares (R.book from.old) (R.book from.new) }
{
    let [nw, ne, sw, se] = from.quarters_of(sq);
    let upper = count(from, nw, counts)? + count(from, ne, counts)?;
    let lower = count(from, sw, counts)? + count(from, se, counts)?;
    Ok(upper + lower)
}

// How many live cells a leaf has.
fn leaf_count(word: u64) -> u128
    ensures count { result ≡ cell_count 8 (bits_plane word) }
    ensures most { result ≤ 64 }
{
    u128::from(word.count_ones())
}
