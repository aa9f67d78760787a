//! How a desk goes to its work, and comes back.
ghost use Rattle.node_table.specs.Desks.{IsDeskOf};
ghost use Rattle.node_table.specs.DesksAtWork.{KnowsAllOf, book_here};
ghost use Rattle.node_table.specs.Teams.{AreAtOneTable};
ghost use Rattle.worker_split.specs.Work.{Brings, SetsOut};

use hashlife_step::Tally;
use node_table::{At, Desk, NodeTable};

/// The desk at its table, and another one for the work, which knows the same.
pub(crate) fn set_out(table: &NodeTable, desk: Desk) -> (At<'_>, At<'_>)
    requires { IsDeskOf table.now desk }
    ensures { SetsOut table.now desk result.0 result.1 }
{
    let mut own = table.at(desk);
    let work = own.split_off();
    (own, work)
}

/// The desk again, with all that it knew and all that was found out at the other one. What was
/// counted at work is added to its number of expansions.
pub(crate) fn come_back(own: At<'_>, work: At<'_>, tally: &Tally) -> Desk
    requires { AreAtOneTable (book_here own) (book_here work) }
    ensures knows { KnowsAllOf own.entry.desk result }
    ensures brings { Brings (book_here own.entry) (book_here work.entry) tally.now.expansions
        result }
{
    let mut own = own;
    own.join(work);
    let mut desk = own.leave();
    desk.count(tally);
    desk
}
