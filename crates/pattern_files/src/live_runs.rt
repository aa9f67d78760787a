//! Squares made of the live items of an RLE file.

ghost use Rattle.std.specs.Prelude.{◌≤◌, IfErr, IfOk};
ghost use Rattle.rle_reader.specs.Meaning.{live_plane};
ghost use Rattle.squares.specs.Book.{AddsSquares, LacksMemoryOr, MayRefuse};
ghost use Rattle.squares.specs.Roots.{IsRootOf};

use hashlife_step::trim;
use plane::{Cell, Refusal};
use rle_reader::RleFile;
use squares::{HIGHEST_ROOT_LEVEL, RunSequence, Sq, Squares, level_around, ordered_runs_to_square};
use std::alloc::Global;

// The live items of a file that are left.
#[derive(Drop)]
struct FileRuns<'a> {
    runs: rle_reader::LiveRuns<'a>,
}

impl RunSequence for FileRuns<'_> {
    ghost left = { λ file. file.runs };

    fn next_run(&mut self) -> Option<(Cell, u64)> {
        self.runs.next()
    }
}

/// The square of the file's live cells around (0,0), at the smallest level of at least 4. The file
/// is read once more.
pub(crate) fn live_runs_to_square<S: Squares>(
    alloc: Global,
    book: &mut S,
    file: &RleFile<'_>,
) -> Result<Sq, Refusal>
    ensures ok { IfOk result (IsRootOf (S.book book.new) (live_plane file.now)) }
    ensures high { IfOk result (λ sq. sq.level ≤ HIGHEST_ROOT_LEVEL) }
    ensures refusal { IfErr result (LacksMemoryOr (MayRefuse (S.book book.new))) }
    ensures adds { AddsSquares (S.book book.old) (S.book book.new) }
{
    let runs = FileRuns {
        runs: file.live_runs(),
    };
    let level = level_around(file.reach());
    let root = ordered_runs_to_square(alloc, book, runs, level)?;
    trim(book, root)
}
