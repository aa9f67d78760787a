//! The items of an RLE body: counts of dead cells, live cells and row ends.

ghost use Rattle.std.specs.Prelude.{◌≡◌, ◌++◌, flat_map, IfOk, OnOk};
ghost use Rattle.pattern_writers.specs.Items.{cell_after, counted, item_text, items_of, run_items};

use super::row_run::RowRun;
use plane::{Cell, TextLine};
use rle_reader::Tag;
use std::alloc::{AllocError, Global};

// Room for a count and a tag.
const ITEM_ROOM: usize = 41;

/// So many dead cells, live cells or ends of rows.
#[derive(Clone, Copy)]
pub(crate) struct Item {
    pub count: u64,
    pub tag: Tag,
}

impl Item {
    /// Its count, if that is not 1, and its tag.
    pub(crate) fn text(self) -> TextLine<ITEM_ROOM>
        ensures { result ≡ item_text self }
    {
        let mut text = TextLine::new();
        if self.count != 1 {
            text.push_number(self.count);
        }
        text.push(match self.tag {
            Tag::Dead => "b",
            Tag::Live => "o",
            Tag::Row => "$",
        });
        text
    }
}

/// The items of the rows from the corner on, whose runs come in bands: no dead cells before the end
/// of a row, and the ends of empty rows counted with those of the row before them.
pub(crate) fn items(
    alloc: Global,
    corner: Cell,
    bands: &[Vec<RowRun>],
) -> Result<Vec<Item>, AllocError>
    ensures { IfOk result (λ items. items.items
        ≡ items_of corner.x corner (flat_map (λ band. band.items) bands.now)) }
{
    let mut items = Vec::new(alloc);
    let mut next = corner;
    for band in bands {
        next = push_runs(&mut items, corner.x, next, band)?;
    }
    Ok(items)
}

// Adds the items from a cell on to the end of the last of some runs, and answers the cell after it.
fn push_runs(
    items: &mut Vec<Item>,
    left: i64,
    start: Cell,
    runs: &[RowRun],
) -> Result<Cell, AllocError>
    ensures items { OnOk result
        (items.new.items ≡ items.old.items ++ items_of left start runs.now) }
    ensures next { IfOk result (λ next. next ≡ cell_after start runs.now) }
{
    let mut next = start;
    for run in runs {
        push_run(items, left, next, *run)?;
        next = run.next_cell();
    }
    Ok(next)
}

// Adds the items from a cell on to the end of a run, in rows that begin in the column `left`.
fn push_run(items: &mut Vec<Item>, left: i64, next: Cell, run: RowRun) -> Result<(), AllocError>
    ensures { OnOk result (items.new.items ≡ items.old.items ++ run_items left next run) }
{
    let start = if run.row == next.y { next.x } else { left };
    push_counted(items, Tag::Row, run.row.abs_diff(next.y))?;
    push_counted(items, Tag::Dead, run.first.abs_diff(start))?;
    push_counted(items, Tag::Live, run.end.abs_diff(run.first))?;
    Ok(())
}

// Adds an item, unless its count is 0.
fn push_counted(items: &mut Vec<Item>, tag: Tag, count: u64) -> Result<(), AllocError>
    ensures { OnOk result (items.new.items ≡ items.old.items ++ counted tag count) }
{
    if count > 0 {
        items.push(Item { count, tag })?;
    }
    Ok(())
}
