//! Why a stimulus or a power word doesn't fit a circuit.

use sec_base::Word;

/// What doesn't fit.
#[derive(Drop)]
pub enum Misfit {
    /// The first name of the stimulus that is no input of the circuit.
    Unknown(Word),
    /// The first input of the circuit that the stimulus lacks.
    Missing(Word),
    /// The power word hasn't one digit `0` or `1` for each latch.
    Power,
}
