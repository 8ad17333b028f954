//! The hints of an added clause.

/// A hint of an addition.
#[derive(Clone, Copy)]
pub enum Hint {
    /// The number of a clause.
    Clause(u64),
    /// A number below 0, without its sign.
    Negative(u64),
}
