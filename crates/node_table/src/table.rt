//! A running table: opened over words, closed to words, and its desks, split and joined.
ghost use Rattle.std.specs.Prelude.{◌≡◌, ◌<◌, ◌+◌, min, IfOk, IfErr, IfSome};
ghost use Rattle.table_core.specs.Layout.{size};

use crate::at::At;
use crate::desk::Desk;
use crate::desk_view::DeskView;
use crate::held::Held;
use crate::rules::TableInvariant;
use crate::still::Still;
use atomic_table::Table;
use plane::Refusal;
use rule_text::Rule;
use squares::Squares;
use std::alloc::Global;
use table_core::Key;

/// An open table: words that threads share, each through a desk of its own.
#[derive(Drop)]
pub struct NodeTable {
    pub(crate) table: Table<(), DeskView, Still, TableInvariant, Global>,
    pub(crate) key: Key,
    ghost same_key: { table.shared.key.key ≡ key },
    ghost long: { table.shared.table_id.words ≡ size key.shape.bits },
    ghost no_slots: { table.shared.table_id.slots ≡ 0 },
}

impl NodeTable {
    ghost use Rattle.squares.specs.Book.{Keeps};
    ghost use Rattle.node_table.specs.Desks.{IsDeskOf, book_at, work_at, expansions_of};
    ghost use Rattle.node_table.specs.DesksAtWork.{KnowsAllOf};
    ghost use Rattle.node_table.specs.Openings.{Opens, Closes, StartsFrom};

    /// The shape, the rule and the exponent of the table.
    pub fn key(&self) -> &Key
        ensures { result.now ≡ self.now.key }
    {
        &self.key
    }

    /// A word as it stands now. No clause says which it is, since threads may change it meanwhile.
    pub fn peek(&self, index: usize) -> u64
        requires { index < size self.now.key.shape.bits }
    {
        self.table.shared.peek(index)
    }

    /// A running table of these words, and of no others, under a rule and an exponent, and its
    /// first desk, which knows all that the words then say. The results that are the same under
    /// both heads stay, and no other. If an allocation fails, the words come back as they were.
    /// Words under the table's own head stand in memory twice at most meanwhile, and others three
    /// times.
    pub fn open(
        alloc: Global,
        still: Still,
        rule: Rule,
        exponent: u8,
    ) -> Result<(NodeTable, Desk), (Still, Refusal)>
        ensures ok { IfOk result (λ opened. Opens still rule exponent opened.0 opened.1) }
        ensures err { IfErr result (λ refused.
            (refused.0 ≡ still) × (refused.1 ≡ Refusal.NoMemory)) }
    {
        let key = Key {
            shape: still.key.shape,
            rule,
            exponent,
        };
        if still.has_head(&key) {
            return match NodeTable::of_still(alloc, still) {
                Ok(opened) => Ok(opened),
                Err(still) => Err((still, Refusal::NoMemory)),
            };
        }
        let Ok(reopened) = still.reopen(alloc, key) else {
            return Err((still, Refusal::NoMemory));
        };
        match NodeTable::of_still(alloc, reopened) {
            Ok(opened) => Ok(opened),
            Err(_) => Err((still, Refusal::NoMemory)),
        }
    }

    // A running table of these words, under their own head. Where memory is wanting, the words come
    // back.
    fn of_still(alloc: Global, still: Still) -> Result<(NodeTable, Desk), Still>
        ensures ok { IfOk result (λ opened. StartsFrom still opened.0 opened.1) }
        ensures err { IfErr result (λ same. same ≡ still) }
    {
        let still = still.in_vector(alloc);
        match NodeTable::of_vector(alloc, &still) {
            Some(opened) => Ok(opened),
            None => Err(still),
        }
    }

    // A running table of these words, under their own head. There is none where no vector holds the
    // words, or memory is wanting.
    fn of_vector(alloc: Global, still: &Still) -> Option<(NodeTable, Desk)>
        ensures { IfSome result (λ opened. StartsFrom still.now opened.0 opened.1) }
    {
        let words = still.words.as_slice()?;
        let Ok((table, seat)) = Table::of_words(alloc, words, still) else {
            return None;
        };
        let key = still.key;
        Some((
            NodeTable { table, key },
            Desk {
                seat,
                expansions: 0,
            },
        ))
    }

    /// The words in one owner's hands, where the table had them: nothing is copied, and no memory
    /// is taken. They say all that the desk knew.
    pub fn close(self, desk: Desk) -> Still
        requires { IsDeskOf self desk }
        ensures { Closes self desk result }
    {
        let NodeTable { table, key } = self;
        let Desk {
            seat,
            expansions: _,
        } = desk;
        let words = Held::of_table(table.close_with(seat));
        Still { key, words }
    }

    /// The desk, at work at its table.
    pub fn at(&self, desk: Desk) -> At<'_>
        requires { IsDeskOf self.now desk }
        ensures book { ⟦<At<'static> as Squares>⟧.book result
            ≡ work_at (expansions_of desk) self.now desk }
        ensures grows { KnowsAllOf desk result.desk }
    {
        let Desk { seat, expansions } = desk;
        At {
            table: self,
            desk: Desk {
                seat,
                expansions: 0,
            },
            expansions,
        }
    }

    /// Two desks that know what the one knew. The first goes on with its number of expansions, the
    /// second begins with 0.
    pub fn split(&self, desk: Desk) -> (Desk, Desk)
        requires { IsDeskOf self.now desk }
        ensures tables { IsDeskOf self.now result.0 × IsDeskOf self.now result.1 }
        ensures books { (book_at self.now result.0 ≡ book_at self.now desk)
            × (book_at self.now result.1 ≡ book_at self.now desk) }
        ensures grows { KnowsAllOf desk result.0 × KnowsAllOf desk result.1 }
        ensures expansions { (expansions_of result.0 ≡ expansions_of desk)
            × (expansions_of result.1 ≡ 0) }
    {
        let mut desk = desk;
        let other = desk.split_off(self);
        (desk, other)
    }

    /// One desk that knows what either knew: a square has one number then. Their numbers of
    /// expansions are added, and a number that is full stays.
    pub fn join(&self, first: Desk, second: Desk) -> Desk
        requires first { IsDeskOf self.now first }
        requires second { IsDeskOf self.now second }
        ensures table { IsDeskOf self.now result }
        ensures first { Keeps (book_at self.now first) (book_at self.now result) }
        ensures second { Keeps (book_at self.now second) (book_at self.now result) }
        ensures grows { KnowsAllOf first result × KnowsAllOf second result }
        ensures expansions { expansions_of result
            ≡ min u64.MAX (expansions_of first + expansions_of second) }
    {
        let mut desk = first;
        desk.join(self, second);
        desk
    }
}
