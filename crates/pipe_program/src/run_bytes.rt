//! The runs of a pattern, as bytes.

ghost use Rattle.std.specs.Prelude.{◌≡◌, ◌++◌, true, IfOk, IsOkUnless, OnOk};
ghost use Rattle.engine.specs.Sessions.{IsSameSession, cells_of, is_open};
ghost use Rattle.pipe_program.specs.RunBytes.{AreRunBytes, row_bytes, run_bytes};

use engine::Session;
use plane::Refusal;
use std::alloc::{AllocError, Global};

/// The runs of live cells, row by row: of each the first cell's x and y and the number of cells, as
/// little-endian numbers of 64 bits. `NoMemory` where there is no room for them.
pub(crate) fn run_bytes(alloc: Global, session: &mut Session) -> Result<Vec<u8>, Refusal>
    ensures ok { IfOk result (λ bytes. AreRunBytes (cells_of session.old) bytes.items) }
    ensures same { IsSameSession session.old session.new }
    ensures opened { OnOk result (is_open session.old ≡ true) }
    ensures memory { IsOkUnless result Refusal.NoMemory }
{
    let mut bytes = Vec::new(alloc);
    let Some(bounds) = session.bounds(alloc)? else {
        return Ok(bytes);
    };
    let mut y = bounds.top;
    while let Some(row) = session.first_row(y)? {
        let runs = session.row_runs(alloc, row)?;
        push_runs(&mut bytes, row, &runs)?;
        if row >= bounds.bottom {
            return Ok(bytes);
        }
        y = row + 1;
    }
    Ok(bytes)
}

// Adds the runs of a row.
fn push_runs(bytes: &mut Vec<u8>, y: i64, runs: &[(i64, u64)]) -> Result<(), AllocError>
    ensures { OnOk result (bytes.new.items ≡ bytes.old.items ++ row_bytes y runs.now) }
{
    for run in runs {
        push_run(bytes, y, *run)?;
    }
    Ok(())
}

// Adds a run.
fn push_run(bytes: &mut Vec<u8>, y: i64, run: (i64, u64)) -> Result<(), AllocError>
    ensures { OnOk result (bytes.new.items ≡ bytes.old.items ++ run_bytes y run) }
{
    bytes.extend_from_slice(&run.0.to_le_bytes())?;
    bytes.extend_from_slice(&y.to_le_bytes())?;
    bytes.extend_from_slice(&run.1.to_le_bytes())
}
