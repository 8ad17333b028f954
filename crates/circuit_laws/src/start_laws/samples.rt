//! Examples that meet the laws' premises, with latches that read themselves.

ghost use Rattle.circuit_laws.specs.start_laws.Samples.{ResetIsKnown, CoversAreNotExact};

/// After one cycle of reset a toggle is known to be 0, a latch that keeps its value is known never, and the tail of each run is a run from 0.
pub fn reset_is_known()
    ensures { ResetIsKnown }
{}

/// What a cover forces isn't always what its rows give: the rows of a bit and of its complement together.
pub fn covers_are_not_exact()
    ensures { CoversAreNotExact }
{}
