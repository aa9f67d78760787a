//! The size of a table, and where its words stand.

ghost use Rattle.std.specs.Prelude.{◌≡◌, ◌≤◌, ◌<◌, ◌+◌, ◌^◌, ◌↔◌, IsTrue};
ghost use Rattle.table_core.specs.Sizes.{IsPairCount};

/// The fewest pair slots that a table may have.
pub const SMALLEST_PAIR_COUNT: u32 = 1 << 10;

/// The most pair slots that a table may have.
pub const LARGEST_PAIR_COUNT: u32 = 1 << 28;

/// How many pair slots the tables of a run may have together unless it is told otherwise.
pub const DEFAULT_PAIR_COUNT: u32 = 1 << 22;

/// How many slots a shard has, so how many places the way of a word has.
pub const SHARD_LEN: u32 = 256;

// 2^64 divided by the golden ratio: the upper bits of a product by it depend on all bits of the
// word.
const SPREADING_FACTOR: u64 = 0x9E37_79B9_7F4A_7C15;

/// What a slot is for.
#[derive(Clone, Copy, Debug, PartialEq, Eq)]
pub enum Kind {
    /// The 64 cells of a square of side 8.
    Leaf,
    /// Two numbers: two squares beside one another, or two such halves below one another.
    Pair,
}

/// The size of a table: it has 2 to the power `bits` pair slots, and a quarter as many leaf slots.
#[derive(Clone, Copy)]
pub struct Shape {
    pub bits: u8,
    ghost range: { (10 ≤ bits) × (bits ≤ 28) },
}

impl Shape {
    ghost use Rattle.table_core.specs.Layout.{first, slot_on_way, way, slot_bits, start, size, result_of, IsSlot};
    ghost use Rattle.table_core.specs.declared.shape.Kind.TheVariants.{Pair};

    /// The shape of a table of so many pair slots.
    pub fn new(pairs: u32) -> Shape
        requires { IsPairCount pairs }
        ensures { 2 ^ result.bits ≡ pairs }
    {
        Shape {
            bits: pairs.ilog2() as u8,
        }
    }

    /// Whether a table may have so many pair slots: a power of two, from `SMALLEST_PAIR_COUNT` to
    /// `LARGEST_PAIR_COUNT`.
    pub fn is_pair_count(pairs: u32) -> bool
        ensures { IsTrue result ↔ IsPairCount pairs }
    {
        if pairs < SMALLEST_PAIR_COUNT || pairs > LARGEST_PAIR_COUNT {
            return false;
        }
        pairs == 1 << pairs.ilog2()
    }

    /// How many slots there are of a kind.
    pub fn slot_count(self, kind: Kind) -> u32
        ensures { result ≡ 2 ^ slot_bits self.bits kind }
    {
        1 << self.slot_bits(kind)
    }

    /// How many words a table has: the head, the slots of leaves and pairs, and a result slot for
    /// each pair slot.
    pub fn word_count(self) -> u32
        ensures { result ≡ size self.bits }
    {
        1 + self.slot_count(Kind::Leaf) + self.slot_count(Kind::Pair) + self.slot_count(Kind::Pair)
    }

    /// The index of the word of a slot. Slots of each kind are counted from 0.
    pub fn index(self, kind: Kind, slot: u32) -> u32
        requires { slot < 2 ^ slot_bits self.bits kind }
        ensures index { result ≡ start self.bits kind + slot }
        ensures slot { IsSlot self.bits kind result }
        ensures range { result < size self.bits }
    {
        self.start(kind) + slot
    }

    /// The index of the word with the result of the square whose pair stands at this index.
    pub fn result_index(self, pair: u32) -> u32
        requires { IsSlot self.bits Pair pair }
        ensures index { result ≡ result_of self.bits pair }
        ensures range { result < size self.bits }
    {
        pair + self.slot_count(Kind::Pair)
    }

    /// The slot that a word asks for first.
    pub fn first(self, kind: Kind, word: u64) -> u32
        ensures slot { result ≡ first (slot_bits self.bits kind) word }
        ensures range { result < 2 ^ slot_bits self.bits kind }
    {
        (word.wrapping_mul(SPREADING_FACTOR) >> (64 - self.slot_bits(kind))) as u32
    }

    /// The slot at this place of a word's way: from the first slot on to the end of its shard, and
    /// then round from the shard's beginning.
    pub fn way(self, kind: Kind, word: u64, place: u32) -> u32
        requires { place < SHARD_LEN }
        ensures slot { result ≡ slot_on_way (slot_bits self.bits kind) word place }
        ensures range { result < 2 ^ slot_bits self.bits kind }
    {
        let first = self.first(kind, word);
        SHARD_LEN * (first / SHARD_LEN) + (first + place) % SHARD_LEN
    }

    /// The index of the word at this place of a word's way.
    pub fn way_index(self, kind: Kind, word: u64, place: u32) -> u32
        requires { place < SHARD_LEN }
        ensures index { result ≡ way self.bits kind word place }
        ensures slot { IsSlot self.bits kind result }
        ensures range { result < size self.bits }
    {
        self.index(kind, self.way(kind, word, place))
    }

    fn slot_bits(self, kind: Kind) -> u8
        ensures value { result ≡ slot_bits self.bits kind }
        ensures range { (8 ≤ result) × (result ≤ 28) }
    {
        match kind {
            Kind::Leaf => self.bits - 2,
            Kind::Pair => self.bits,
        }
    }

    // The index of the first word of a kind.
    fn start(self, kind: Kind) -> u32
        ensures { result ≡ start self.bits kind }
    {
        match kind {
            Kind::Leaf => 1,
            Kind::Pair => 1 + self.slot_count(Kind::Leaf),
        }
    }
}
