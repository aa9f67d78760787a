//! Words in one owner's hands, wherever they stand.

ghost use Rattle.std.specs.Prelude.{◌≡◌, ◌<◌, IfOk, IfSome, length, slice_index};
ghost use Rattle.std.specs.Slots.{IsFull, slots_items, slots_len};

use atomic_table::Closed;
use std::alloc::{AllocError, Global};
use std::marker::Model;

/// Words in one owner's hands: those of a vector, or those of a table that no thread shares any
/// more, where the table had them.
pub struct Held {
    holder: Holder,
}

// Who holds the words.
enum Holder {
    Vector(Vec<u64>),
    Table(Closed<(), Global>),
}

impl Model for Held {
    ghost use Rattle.std.specs.Prelude.{List, ℕ};
    ghost use Rattle.node_table.specs.Held.{CanBeRead, items_in};

    ghost Value = { List ℕ };

    ghost view = { λ held. items_in held.holder };

    ghost invariant = { λ held. CanBeRead held.holder };
}

impl Drop for Held {
    fn drop(self) {
        let Held { holder } = self;
        match holder {
            Holder::Vector(words) => drop(words),
            Holder::Table(closed) => closed.free(),
        }
    }
}

impl Held {
    /// The words of a vector.
    pub(crate) fn of_vector(words: Vec<u64>) -> Held
        ensures { result ≡ words.items }
    {
        Held {
            holder: Holder::Vector(words),
        }
    }

    /// The words of a table that no thread shares any more.
    pub(crate) fn of_table(closed: Closed<(), Global>) -> Held
        requires full { IsFull closed.words }
        requires no_slots { slots_len closed.slots ≡ 0 }
        ensures { result ≡ slots_items closed.words }
    {
        Held {
            holder: Holder::Table(closed),
        }
    }

    /// How many words there are.
    pub fn len(&self) -> usize
        ensures { result ≡ length self.now }
    {
        match &self.holder {
            Holder::Vector(words) => words.len(),
            Holder::Table(closed) => closed.words.len(),
        }
    }

    /// One of the words.
    pub fn word(&self, index: usize) -> u64
        requires { index < length self.now }
        ensures { result ≡ slice_index self.now index }
    {
        match &self.holder {
            Holder::Vector(words) => words[index],
            Holder::Table(closed) => closed.word(index),
        }
    }

    /// The words as a slice, where a vector holds them.
    pub(crate) fn as_slice(&self) -> Option<&[u64]>
        ensures { IfSome result (λ words. words.now ≡ self.now) }
    {
        match &self.holder {
            Holder::Vector(words) => Some(words.as_slice()),
            Holder::Table(_) => None,
        }
    }

    /// The same words, held by a vector if there is memory for it.
    pub(crate) fn in_vector(self, alloc: Global) -> Held
        ensures { result ≡ self }
    {
        if self.as_slice().is_some() {
            return self;
        }
        match self.copied(alloc) {
            Ok(words) => Held::of_vector(words),
            Err(_) => self,
        }
    }

    /// A vector with the same words.
    pub(crate) fn copied(&self, alloc: Global) -> Result<Vec<u64>, AllocError>
        ensures { IfOk result (λ words. words.items ≡ self.now) }
    {
        let count = self.len();
        let mut words = vec![in alloc; 0; count]?;
        for index in 0..count {
            words[index] = self.word(index);
        }
        Ok(words)
    }
}
