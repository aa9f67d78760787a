//! The figures by which tables grow, are swept and are collected. No clause speaks of them: a run is
//! right whatever they are, and they decide how fast it is.

use node_sweep::Shares;

/// How many pair slots a new table has, as a power of two, if it may have so many.
pub(crate) const START_BITS: u8 = 12;

/// From how many pair slots on a table is large, as a power of two: it is larger than a processor's
/// cache.
pub(crate) const LARGE_BITS: u8 = 18;

/// From how many pair slots on a table grows by sixteen where it may have more slots than by
/// default, as a power of two: who gives so many needs them.
pub(crate) const BITS_OF_LARGE_STEPS: u8 = 20;

/// From how many pair slots on a table grows by four where the step of one worker that filled it has
/// come far, as a power of two. Several workers copy so small a table slower than one worker fills
/// it: theirs does so from `BITS_OF_LARGE_STEPS` on.
pub(crate) const BITS_OF_SMALL_STEPS: u8 = 16;

/// Squares of this part of the side of a step's square, as a power of two, tell how far the step has
/// come.
pub(crate) const COUNTED_PART: u8 = 6;

/// More of them than this are known once a step has come far.
pub(crate) const FEW_PARTS: u32 = 100;

/// A full large table that has taken this many steps is swept before it grows.
pub(crate) const STEPS_BEFORE_SWEEP: u32 = 4;

/// The same for a full table that has a quarter or half as many slots as a large one.
pub(crate) const STEPS_BEFORE_SMALLER_SWEEP: u32 = 256;

/// A table that has taken more steps than this has nearly as many slots as a step needs.
pub(crate) const STEPS_OF_GROWTH: u32 = 4;

/// A step of at most this many expansions is short: threads would take more time to start than they
/// save.
pub(crate) const FEW_EXPANSIONS: u64 = 16384;

/// One more collection for a step helps only if one more in so many large squares is finished than
/// at the last.
pub(crate) const FINISHED_SHARE: u64 = 32;

/// A step that expanded fewer squares than one for this many pair slots had too little room.
pub(crate) const SLOTS_AN_EXPANSION: u64 = 16;

/// So many workers make the squares of a first step again faster than they copy them to a table
/// that may have more slots than by default.
pub(crate) const LARGE_TEAM: usize = 8;

/// After so many collections for one step, only the cells are tried.
pub(crate) const MOST_COLLECTIONS: u32 = 1 << 20;

/// How much a collection keeps beside what the root reaches: small squares in a quarter of the pair
/// slots, and large ones that have results in one in 128. No small squares are kept where pairs of
/// leaves take more than one pair slot in 16: their leaves would leave too few leaf slots for
/// others.
pub const COLLECTION_SHARES: Shares = Shares {
    small: 4,
    large: 128,
    leaves: 16,
};

/// From how many pair slots on one more thread makes the words of a copy, while the others find out
/// what is copied, as a power of two.
pub const BITS_OF_SHARED_COPIES: u8 = 20;

/// About how many bytes of a large pattern file there are for each pair slot that its squares need.
pub const BYTES_A_PAIR_SLOT: u64 = 10;
