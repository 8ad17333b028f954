//! An assumption on the inputs, as comparisons take it.

use crate::assume_functions::OwnFunction;
use sec_base::Bits;

/// An assumption on the inputs: its function, and a row that meets it.
#[derive(Drop)]
pub struct Premise {
    /// The function of its output, on a graph of its own.
    pub own: OwnFunction,
    /// What the function weighs at one place.
    pub weight: u32,
    /// A row of inputs for which it is 1, with a bit for each column.
    pub meeting: Bits,
}
