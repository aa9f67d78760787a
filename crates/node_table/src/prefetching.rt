//! Slots that are loaded before they are searched, so that searches for several words wait for
//! memory together.

ghost use Rattle.std.specs.Prelude.{◌<◌};
ghost use Rattle.squares.specs.Book.{IsKnown};
ghost use Rattle.node_table.specs.DesksAtWork.{book_here};

use crate::at::At;
use crate::halves::Half;
use squares::Sq;
use table_core::{Kind, pair_word};

impl At<'_> {
    /// The slot where the search for the half of two squares begins.
    pub(crate) fn prefetch_half(&self, left: Sq, right: Sq) {
        self.prefetch(left.num.0, right.num.0);
    }

    /// The slot where the search for the square of two halves begins.
    pub(crate) fn prefetch_whole(&self, upper: Half, lower: Half) {
        self.prefetch(upper.number, lower.number);
        let word = pair_word(upper.number, lower.number);
        let index = self.table.key.shape.way_index(Kind::Pair, word, 0);
        self.table
            .table
            .shared
            .peek(self.table.key.shape.result_index(index) as usize);
    }

    /// The result beside a known square.
    pub(crate) fn prefetch_result(&self, sq: Sq)
        requires known { IsKnown (book_here self.now) sq.level sq }
        requires level { 3 < sq.level }
    {
        if !sq.is_empty() {
            let index = self.table.key.shape.result_index(sq.num.0);
            self.table.table.shared.peek(index as usize);
        }
    }

    fn prefetch(&self, first: u32, second: u32) {
        let word = pair_word(first, second);
        let index = self.table.key.shape.way_index(Kind::Pair, word, 0);
        self.table.table.shared.peek(index as usize);
    }
}
