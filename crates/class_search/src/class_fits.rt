//! What the search for a latch's class gives: the first class that fits, what a limit was asked about, and what tells two classes apart.

pub mod class_joining;
pub mod laws;

pub use crate::{Class, Difference, Enable, Fit, Proof, Told, Unfit, first_fit};
pub use class_joining::{EnableTable, latches_in_order};
