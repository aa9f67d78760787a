//! What holds of all desks, as a call that does nothing and says it in its clause.
ghost use Rattle.node_table.specs.KeptBooks.{EveryKeptBookKnowsAll};

/// A call that keeps the book of a desk keeps all that the desk knew: its words, its squares and
/// halves of squares, and its results. Each call over any book keeps its book, as `future` and `pad`
/// do, also where it refuses.
pub fn every_kept_book_knows_all()
    ensures { EveryKeptBookKnowsAll }
{}
