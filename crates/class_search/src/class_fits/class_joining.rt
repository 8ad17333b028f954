//! Latches of two circuits join classes one after the other: what is known of the enables of those that have a class, and how the class
//! map goes on.

pub mod laws;
mod order;
mod table;

pub use order::latches_in_order;
pub use table::EnableTable;
