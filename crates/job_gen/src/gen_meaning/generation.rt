//! What is asked of a generated pair.

/// Which pair is made, and how many conflicts a query of it may have.
#[derive(Clone, Copy)]
pub struct Generation {
    /// The number that the pair is made from.
    pub seed: u64,
    /// Whether the exclusive ors of B's first layer are regrouped.
    pub regroup: bool,
    /// The greatest number of conflicts of one query, 0 to 200,000.
    pub conflicts: u32,
}
