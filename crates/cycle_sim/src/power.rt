//! The values of latches in cycle 0.

use sec_base::Bits;

/// The values of a net's latches at power-up.
#[derive(Drop)]
pub enum Power {
    /// Each latch starts with 0.
    Zeros,
    /// Each latch starts with 1.
    Ones,
    /// One bit for each latch, in the net's order.
    Given(Bits),
}
