//! What is told of two words.

use aig::Bits;

/// What is told of two words.
#[derive(Drop)]
pub enum Words {
    /// The literals at each place have one value under every assignment.
    Same,
    /// Under this assignment the literals at some place differ: variable v has the bit at place v.
    Differ(Bits),
    /// Nothing is told.
    Open,
}
