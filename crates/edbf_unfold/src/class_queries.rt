//! What queries over literals of load enables say of the classes of latches: laws alone.

pub mod laws;
