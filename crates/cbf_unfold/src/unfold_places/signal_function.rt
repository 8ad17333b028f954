//! A signal as a function.

use aig::Lit;
use flat_net::Ids;

/// A signal as a function of inputs at earlier cycles.
#[derive(Drop)]
pub struct Unfolded {
    /// The function in the graph.
    pub lit: Lit,
    /// The inputs at shifts that the signal's tree has as leaves, by their numbers in the table: those of a greater
    /// shift first, and of one shift by the inputs' numbers.
    pub vars: Ids,
}
