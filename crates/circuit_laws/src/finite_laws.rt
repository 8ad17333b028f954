//! What is decided of a flat net by trying all values of its inputs and latches.

pub mod laws;
