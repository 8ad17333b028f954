//! How a comparison is made.

use circuit_theory::Mode;

/// How a comparison is made.
#[derive(Clone, Copy)]
pub struct Settings {
    pub mode: Mode,
    /// Whether latches that both circuits have are cut open.
    pub expose: bool,
    /// The greatest number of conflicts of one query, 0 to 200,000.
    pub conflicts: u32,
    /// Whether each latch with the initial value 0 or 1 has it in cycle 0.
    pub reset: bool,
}
