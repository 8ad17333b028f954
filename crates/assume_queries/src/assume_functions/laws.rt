//! What follows for an assumption's function at a place. None of these functions does anything: each contract is a law.

ghost use Rattle.assume_queries.specs.assume_functions.Laws.{AssumedMeets, AssumedLater};

/// The literal is 1 exactly where the row at the place meets the assumption.
pub fn assumed_meets()
    ensures { AssumedMeets }
{}

/// The function stays that at the place while the graph and the table grow.
pub fn assumed_later()
    ensures { AssumedLater }
{}
