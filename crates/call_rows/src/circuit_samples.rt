//! Slow programs over small circuits, and computed examples that meet the premises of the laws. Only further examples stand on this crate.

pub mod assumptions;
pub mod cells;
pub mod event_samples;
pub mod partitions;
