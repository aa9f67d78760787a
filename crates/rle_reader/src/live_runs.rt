//! The live items of a checked file, one after the other.

ghost use Rattle.std.specs.Prelude.{◌≡◌, ◌<◌, ◌≤◌, ◌+◌, [], ◌∷◌, true, length, MatchOption};
ghost use Rattle.std.specs.Iterator.{YieldsFirst, item_count};
ghost use Rattle.rle_reader.specs.Body.{stripped_from};
ghost use Rattle.rle_reader.specs.LiveLeft.{live_left, live_rest, column_after, row_after};

use crate::body::{is_skipped, past_comments, past_skipped};
use crate::item::{Tag, tag_of};
use plane::Cell;
use std::marker::Model;
use text_lines::with_digit;

/// The live items of a file, in order, each as its first cell and how many cells it has to the
/// right. A contract sees those that are still to come.
#[derive(Drop)]
pub struct LiveRuns<'a> {
    rest: LiveRest<'a>,
}

impl<'a> Model for LiveRuns<'a> {
    ghost use Rattle.std.specs.Prelude.{ℕ, List};
    ghost use Rattle.plane.specs.declared.cell.Cell.{Cell};
    ghost use Rattle.rle_reader.specs.LiveLeft.{live_rest};

    ghost Value = { List (Cell × ℕ) };

    ghost view = { λ runs. live_rest runs.rest };
}

impl<'a> LiveRuns<'a> {
    /// The live items of the body that begins at this place, the start of a line, in a text that
    /// was checked.
    pub(crate) fn new(source: &'a [u8], at: usize, pos: Cell) -> Self
        requires { at ≤ length source.now }
        ensures { result ≡ live_left pos.x pos.x pos.y 0 (stripped_from source.now at true) }
    {
        LiveRuns {
            rest: LiveRest {
                source,
                at: past_comments(source, at),
                left: pos.x,
                column: pos.x,
                row: pos.y,
            },
        }
    }
}

impl<'a> Iterator for LiveRuns<'a> {
    type Item = (Cell, u64);

    ghost next_gives = { YieldsFirst (λ runs. runs) };

    ghost remaining = { item_count (λ runs. runs) };

    fn next(&mut self) -> Option<(Cell, u64)> {
        self.rest.next_live()
    }
}

// What is left of a body without faults, and where its next item begins. No comment begins at
// `at`.
#[derive(Clone, Copy)]
struct LiveRest<'a> {
    source: &'a [u8],
    at: usize,
    left: i64,
    column: i64,
    row: i64,
}

impl<'a> LiveRest<'a> {
    // Takes items up to the next live one, or all that is left if there is none.
    fn next_live(&mut self) -> Option<(Cell, u64)>
        ensures { MatchOption result ((live_rest self.old ≡ []) × (live_rest self.new ≡ []))
            (λ run. live_rest self.old ≡ run ∷ live_rest self.new) }
    {
        let mut count = 0;
        while self.at < self.source.len() {
            let byte = self.source[self.at];
            if byte.is_ascii_digit() {
                self.at += 1;
                count = with_digit(count, byte);
                continue;
            }
            let Ok(tag) = tag_of(byte) else {
                if !is_skipped(byte) {
                    break;
                }
                self.at = past_skipped(self.source, self.at);
                continue;
            };
            let run = (self.cell(), count.max(1));
            self.pass(tag, run.1);
            if tag == Tag::Live {
                return Some(run);
            }
            count = 0;
        }
        self.at = self.source.len();
        None
    }

    // The cell at which the next item begins.
    fn cell(&self) -> Cell
        ensures { result ≡ record { y = self.now.row; x = self.now.column } }
    {
        Cell {
            y: self.row,
            x: self.column,
        }
    }

    // Passes the tag of an item with this count.
    fn pass(&mut self, tag: Tag, count: u64)
        requires { self.old.at < length self.old.source.now }
        ensures source { self.new.source.now ≡ self.old.source.now }
        ensures at { self.new.at ≡ self.old.at + 1 }
        ensures left { self.new.left ≡ self.old.left }
        ensures column { self.new.column ≡ column_after self.old.left self.old.column tag count }
        ensures row { self.new.row ≡ row_after self.old.row tag count }
    {
        self.at += 1;
        if tag == Tag::Row {
            self.column = self.left;
            self.row = self.row.wrapping_add_unsigned(count);
        } else {
            self.column = self.column.wrapping_add_unsigned(count);
        }
    }
}
