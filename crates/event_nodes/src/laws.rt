//! What follows from what has been counted. None of these functions does anything: each contract is a law.

ghost use Rattle.event_nodes.specs.Laws.{CountedIsWeight, PassedIsOver};

/// What has been counted of a circuit is the event weight of what was unfolded so far.
pub fn counted_is_weight()
    ensures { CountedIsWeight }
{}

/// Where distinct places that are visited weigh more than a number, so does what was unfolded so far.
pub fn passed_is_over()
    ensures { PassedIsOver }
{}
