//! What a copy into fresh words keeps.

/// What a copy into fresh words keeps beside the root, with all that it reaches.
#[derive(Clone, Copy)]
pub enum Keep {
    /// Small squares and halves, and large ones that have results, with these results.
    Collected(Shares),
    /// All squares and results.
    Everything,
}

/// How much a collection is to keep beside what the root reaches: at most one pair slot in so many.
/// No clause promises these amounts. Whatever they are, each square and result that is kept is
/// right, and the root has its cells: they only decide how fast later steps are.
#[derive(Clone, Copy)]
pub struct Shares {
    /// For small squares and halves.
    pub small: u32,
    /// For large squares that have results.
    pub large: u32,
    /// No small square is kept where pairs of leaves take more than one pair slot in so many: their
    /// leaves would leave too few leaf slots for others.
    pub leaves: u32,
}
