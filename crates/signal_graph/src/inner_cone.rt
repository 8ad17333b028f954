//! What of a latch's cone leads back to the latch.
//!
//! The signals of a net get numbers, by their strongly connected components, so that no signal reads one with a greater number. Then
//! a walk that looks for what leads back to a latch turns round at lesser numbers than the latch's, whatever is behind.

mod components;
pub mod latch_cone;
mod numbers;
mod parts;
mod sides;
mod walk;

pub use crate::inner_cone::latch_cone::{
    Bits, Driver, Duplicate, Ids, LatchAt, Net, NoMemory, Seq, Side, Signal, Signals, Words,
    none_enabled,
};
pub use components::{Readings, components_of};
pub use numbers::{are_at_most, number_at, ranks};
pub use parts::{InnerParts, inner_parts};
pub use sides::sides_of;
pub use walk::inside;
