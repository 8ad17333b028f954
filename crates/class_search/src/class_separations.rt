//! Separations of classes of latches: for each two classes, what tells the founder of the higher one from the lower one.

mod apart;
pub mod cone_values;

pub use apart::{Apart, keep_apart};
