//! Texts whose one output can be compared. The function does nothing: its contract is an example.

ghost use Rattle.job_pair.specs.Examples.{PairsAreComparable};
ghost use Rattle.job_pair.specs.job_renamed.Examples.{RenamedAreComparable};

/// An `and` by other rows, and an `and` with a latch behind it against the same retimed, by their output `y`.
pub fn pairs_are_comparable()
    ensures { PairsAreComparable }
{}

/// The same designs, and a text that says no pair of latches.
pub fn renamed_are_comparable()
    ensures { RenamedAreComparable }
{}
