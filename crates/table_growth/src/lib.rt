//! How large the tables of squares are, what a collection keeps, what a table remembers of its
//! steps, and what is tried next where one is full. A run is right whatever a `TableHistory`
//! answers: that decides how fast it is.
#![tactic(auto)]

mod history;
mod policy;
mod retries;
mod sizes;

pub use history::TableHistory;
pub use policy::{BITS_OF_SHARED_COPIES, BYTES_A_PAIR_SLOT, COLLECTION_SHARES};
pub use retries::{Retry, RetryPlan};
pub use sizes::{
    GrowthFactor, expected_shape, has_come_far, larger, pair_count, shape_between, smallest,
};
