//! The runs of live cells in all rows, found in bands of rows that threads share.

ghost use Rattle.std.specs.Prelude.{◌≤◌, ◌<◌, ◌+◌, flat_map, IfOk};
ghost use Rattle.squares.specs.Book.{IsKnown};
ghost use Rattle.pattern_writers.specs.Frame.{HasRoom, band_row};
ghost use Rattle.pattern_writers.specs.RleText.{HasFrame, HasRuns};
ghost use Rattle.pattern_writers.specs.RowRuns.{rows_between};
ghost use Rattle.squares.specs.Roots.{square_plane};
ghost use Rattle.squares.specs.declared.sq.TheConstants.{HIGHEST_ROOT_LEVEL};

use super::frame::{BANDS, Frame};
use super::row_run::{RowRun, runs_between};
use rayon::prelude::*;
use squares::{Look, Sq};
use std::alloc::{AllocError, Global};
use std::thread::Threads;

/// The longest runs of a square's cells, row by row and from left to right, in bands of the rows of
/// their frame. The bands are made in threads.
pub(crate) fn banded_runs<R: Threads + Sync, B: Look + Sync>(
    rt: &R,
    alloc: Global,
    book: &B,
    sq: Sq,
    frame: Frame,
) -> Result<Vec<Vec<RowRun>>, AllocError>
    requires known { IsKnown (B.book book.now) sq.level sq }
    requires level { sq.level ≤ HIGHEST_ROOT_LEVEL }
    requires frame { HasFrame (square_plane (B.book book.now) sq) frame }
    requires room { HasRoom frame }
    ensures { IfOk result (λ bands. HasRuns (square_plane (B.book book.now) sq)
        (flat_map (λ band. band.items) bands.items)) }
{
    (0..BANDS)
        .into_par_iter()
        .with_min_len(1)
        .map(
            move |band: u64| -> Result<Vec<RowRun>, AllocError>
                requires band { band < 64 }
                requires known { IsKnown (B.book book.now) sq.level sq }
                requires level { sq.level ≤ HIGHEST_ROOT_LEVEL }
                requires room { HasRoom frame }
                ensures { IfOk result (λ runs.
                    HasRuns (rows_between (band_row frame band) (band_row frame (band + 1))
                    (square_plane (B.book book.entry.now) sq)) runs.items) }
            {
                runs_between(
                    alloc,
                    book,
                    sq,
                    frame.band_row(band),
                    frame.band_row(band + 1),
                )
            },
        )
        .collect::<Result<Vec<Vec<RowRun>>, AllocError>>(rt, alloc)?
}
