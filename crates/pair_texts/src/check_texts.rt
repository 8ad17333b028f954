//! What the answers of a comparison of two nets mean for the circuits that two texts spell. It has definitions and lemmas alone.
//!
//! Pairs of nets of small designs: what their comparison can't meet. It has lemmas alone, which the crates of premises may use.
