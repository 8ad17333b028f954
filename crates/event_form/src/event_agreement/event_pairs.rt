//! What event functions of two circuits are where both stand side by side: laws alone.

pub mod laws;
