//! What is asked, and where it is found to differ.

use crate::outcome::{Bits, PairName, Query, Seq};

/// Queries over one graph, in order.
pub type Queries = Seq<Query>;

/// What is asked of a pair of signals (a compare point): whether its sides agree in each of its queries.
#[derive(Drop)]
pub struct Obligation {
    pub name: PairName,
    /// What is told as the pair's size, as its sequential depth in cycles.
    pub size: u32,
    /// Whether a difference shows that the circuits differ.
    pub decisive: bool,
    /// In the order in which they are decided, up to the first whose sides don't agree.
    pub queries: Queries,
}

/// Where sides differ: the place of the obligation, the place of the query among its own, and a bit for each of that query's variables.
#[derive(Drop)]
pub struct Difference {
    pub pair: usize,
    pub query: usize,
    pub bits: Bits,
}
