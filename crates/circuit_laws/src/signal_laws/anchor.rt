//! What a signal is tied to.

/// What a signal is tied to: a bit, or the signal at a place, or its complement. Places count A's signals before B's.
#[derive(Clone, Copy, PartialEq, Eq)]
pub enum Anchor {
    Bit(bool),
    Place { place: usize, flipped: bool },
}
