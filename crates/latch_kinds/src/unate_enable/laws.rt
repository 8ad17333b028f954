//! What follows for the cone of a latch. The function does nothing: its contract is a law.

ghost use Rattle.latch_kinds.specs.unate_enable.Laws.{ConesAreOne};

/// A latch has one cone. So the bits of a latch that isn't unate are those of the cone that `cone` gives.
pub fn cones_are_one()
    ensures { ConesAreOne }
{}
