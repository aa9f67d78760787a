//! A book of squares in one owner's hands.

ghost use Rattle.std.specs.Prelude.{◌≡◌, ◌-◌, suc, length, vec_len, IsTrue, is_some, slice_get, Some, IfOk, OnErr};
ghost use Rattle.std.specs.BTreeMap.{IsUnchanged, Updates};
ghost use Rattle.squares.specs.Book.{IsBook, IsFresh};
ghost use Rattle.squares.specs.Nodes.{AreFutures, HasNumbers, IsGood, node_at, nodes_of, plain_book, quarters_order, with_node};
ghost use Rattle.squares.specs.declared.node.PlainNode.TheVariants.{Leaf, Inner};
ghost use Rattle.std.specs.Ordering.{nat_cmp};

use crate::book::{Look, Squares};
use crate::node::{PlainNode, Quarters, Record};
use crate::sq::{Num, Sq};
use plane::{LEAF_LEVEL, Refusal};
use rule_text::Rule;
use std::alloc::{AllocError, Global};
use std::collections::BTreeMap;

/// A book in one owner's hands. It is never full, nobody else tells it results, and it refuses only
/// `NoMemory`: where memory ran out, or its 2^32 numbers did.
#[derive(Drop)]
pub struct PlainBook {
    rule: Rule,
    exponent: u8,
    records: Vec<Record>,
    leaves: BTreeMap<u64, Num>,
    inner: BTreeMap<Quarters, Num>,
    ghost good: { IsGood (nodes_of records.items) },
    ghost leaves_listed: { HasNumbers nat_cmp Leaf (nodes_of records.items) leaves },
    ghost inner_listed: { HasNumbers quarters_order Inner (nodes_of records.items) inner },
    ghost futures: { AreFutures rule exponent records.items },
    ghost is_book: { IsBook (plain_book rule exponent records.items) },
}

// Gives the node the next number.
fn push_node(records: &mut Vec<Record>, node: PlainNode) -> Result<Num, AllocError>
    ensures number { IfOk result (λ num. num.0 ≡ suc (length records.old.items)) }
    ensures len { IfOk result (λ num. vec_len records.new ≡ num.0) }
    ensures ok { IfOk result (λ _. records.new.items ≡ with_node records.old.items node) }
    ensures err { OnErr result (records.new.items ≡ records.old.items) }
{
    let count = records.len();
    if count >= u32::MAX as usize {
        return Err(AllocError);
    }
    records.push(Record { node, future: None })?;
    Ok(Num(count as u32 + 1))
}

// Gives a new node the next number, and notes the number under the node's key.
fn add_node<K: Ord + Drop>(
    records: &mut Vec<Record>,
    numbers: &mut BTreeMap<K, Num>,
    node: PlainNode,
    key: K,
) -> Result<Num, AllocError>
    ensures number { IfOk result (λ num. num.0 ≡ suc (length records.old.items)) }
    ensures ok { IfOk result (λ _. records.new.items ≡ with_node records.old.items node) }
    ensures noted { IfOk result (λ num. Updates K.cmp numbers.old numbers.new key (Some num)) }
    ensures err { OnErr result (records.new.items ≡ records.old.items) }
    ensures same { OnErr result (IsUnchanged numbers.old numbers.new) }
{
    let num = push_node(records, node)?;
    if numbers.insert(key, num).is_err() {
        let _ = records.pop();
        return Err(AllocError);
    }
    Ok(num)
}

impl PlainBook {
    /// A book that knows only the empty squares, for results under this rule and exponent.
    pub fn new(alloc: Global, rule: Rule, exponent: u8) -> Self
        ensures { IsFresh rule exponent (⟦<PlainBook as Squares>⟧.book result) }
    {
        PlainBook {
            rule,
            exponent,
            records: Vec::new(alloc),
            leaves: BTreeMap::new(alloc),
            inner: BTreeMap::new(alloc),
        }
    }

    // What stands under a number other than 0.
    fn record(&self, num: Num) -> Record
        requires { IsTrue (is_some (node_at (nodes_of self.now.records.items) num.0)) }
        ensures record { slice_get self.now.records.items (num.0 - 1) ≡ Some result }
        ensures node { node_at (nodes_of self.now.records.items) num.0 ≡ Some result.node }
    {
        self.records[num.0 as usize - 1]
    }
}

impl Look for PlainBook {
    ghost book = { λ s. plain_book s.rule s.exponent s.records.items };

    fn bits(&self, sq: Sq) -> u64 {
        if sq.is_empty() {
            return 0;
        }
        match self.record(sq.num).node {
            PlainNode::Leaf(word) => word,
            PlainNode::Inner(_) => unreachable!(),
        }
    }

    fn parts(&self, sq: Sq) -> [Sq; 4] {
        let level = sq.level - 1;
        if sq.is_empty() {
            return [Sq::empty(level); 4];
        }
        match self.record(sq.num).node {
            PlainNode::Leaf(_) => unreachable!(),
            PlainNode::Inner(quarters) => [
                Sq {
                    level,
                    num: quarters.nw,
                },
                Sq {
                    level,
                    num: quarters.ne,
                },
                Sq {
                    level,
                    num: quarters.sw,
                },
                Sq {
                    level,
                    num: quarters.se,
                },
            ],
        }
    }

    ghost is_book = { λ s. s.is_book };
}

impl Squares for PlainBook {
    ghost book = { λ s. plain_book s.rule s.exponent s.records.items };

    fn rule(&self) -> &Rule {
        &self.rule
    }

    fn exponent(&self) -> u8 {
        self.exponent
    }

    fn read_bits(&mut self, sq: Sq) -> u64 {
        self.bits(sq)
    }

    fn read_parts(&mut self, sq: Sq) -> [Sq; 4] {
        self.parts(sq)
    }

    fn leaf(&mut self, word: u64) -> Result<Sq, Refusal> {
        if word == 0 {
            return Ok(Sq::empty(LEAF_LEVEL));
        }
        if let Some(num) = self.leaves.get(&word) {
            return Ok(Sq {
                level: LEAF_LEVEL,
                num: *num,
            });
        }
        let num = add_node(
            &mut self.records,
            &mut self.leaves,
            PlainNode::Leaf(word),
            word,
        )?;
        Ok(Sq {
            level: LEAF_LEVEL,
            num,
        })
    }

    fn quad(&mut self, quarters: [Sq; 4]) -> Result<Sq, Refusal> {
        let node = Quarters::of(quarters);
        let level = node.level;
        if node.are_empty() {
            return Ok(Sq::empty(level));
        }
        if let Some(num) = self.inner.get(&node) {
            return Ok(Sq { level, num: *num });
        }
        let num = add_node(
            &mut self.records,
            &mut self.inner,
            PlainNode::Inner(node),
            node,
        )?;
        Ok(Sq { level, num })
    }

    fn recall(&mut self, sq: Sq) -> Option<Sq> {
        let level = sq.level - 1;
        if sq.is_empty() {
            return Some(Sq::empty(level));
        }
        let num = self.record(sq.num).future?;
        Some(Sq { level, num })
    }

    fn keep(&mut self, sq: Sq, future: Sq) -> Result<(), Refusal> {
        if !sq.is_empty() {
            self.records[sq.num.0 as usize - 1].future = Some(future.num);
        }
        Ok(())
    }

    ghost is_book = { λ s. s.is_book };
}
