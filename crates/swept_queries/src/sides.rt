//! The literals of queries, and what is known of them.

use crate::sweep::Lit;

/// The literals of a query: both sides and the care.
#[derive(Clone, Copy)]
pub struct Sides {
    pub left: Lit,
    pub right: Lit,
    pub care: Lit,
}

/// What is known of a query before it is decided.
#[derive(Clone, Copy)]
pub enum Known {
    Nothing,
    /// Its literals in the swept graph.
    Swept(Sides),
    /// The assignment of this number, of the 512 that were tried, tells its sides apart.
    Apart(u32),
}
