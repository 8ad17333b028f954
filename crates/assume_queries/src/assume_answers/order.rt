//! The orders of variables.

/// Which of two variables goes first.
#[derive(Clone, Copy)]
pub enum VariableOrder {
    /// That of the greater shift, and of one shift that with the lesser number.
    Shifts,
    /// That of the lesser cycle, and of one cycle that with the lesser number.
    Cycles,
}
