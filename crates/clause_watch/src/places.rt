//! Literals with their places on the trail.

use clause_base::Literal;

/// A literal of a clause, and the place at which it became false.
#[derive(Clone, Copy)]
pub struct Placed {
    pub literal: Literal,
    pub place: u32,
}
