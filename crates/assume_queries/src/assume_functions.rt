//! The function of an assumption's output: once on a graph of its own, and from there at each place of a comparison, a place being a
//! number that stands beside an input, as a shift or a cycle; and which places these are.

pub mod assume_places;
mod laws;
mod numbers;
mod own;
mod place;

pub use laws::{assumed_later, assumed_meets};
pub use own::{OwnFunction, own_function};
pub use place::assume_at;
