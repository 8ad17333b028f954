//! What a trail is made of.

use clause_base::Literal;

/// A literal that was made true.
#[derive(Clone, Copy)]
pub struct Entry {
    pub literal: Literal,
    /// The number of the clause that forced it, or none for a decision.
    pub reason: Option<u32>,
}

/// Where a variable stands on the trail, and with which sign.
#[derive(Clone, Copy)]
pub(crate) struct Mark {
    pub(crate) place: u32,
    pub(crate) is_positive: bool,
}

/// What a trail makes of a literal.
#[derive(Clone, Copy)]
pub enum Truth {
    True,
    False,
    Free,
}
