//! That the premises of what is promised of the places that an unfolding visits, and of the literals of load enables, are met. The functions do
//! nothing: each contract is an example.

ghost use Rattle.premise_rows.specs.event_literal_premises.Alike.{AlikeEnablesMeetPremises};
ghost use Rattle.premise_rows.specs.event_literal_premises.Twins.{TwinsMeetPremises};
ghost use Rattle.premise_rows.specs.event_literal_premises.Unlike.{UnlikeEnablesMeetPremises, AlwaysMeetsPremises};
ghost use Rattle.premise_rows.specs.event_literal_premises.Trees.{EqualTreesMeetPremises};
ghost use Rattle.premise_rows.specs.event_literal_premises.Visits.{VisitsMeetPremises};

/// What the enable of a latch behind another one visits: the places are counted and weighed, and the inputs among them are its variables.
pub fn visits_meet_premises()
    ensures { VisitsMeetPremises }
{}

/// The literals of the enables of two such latches, and of their cares: where the care holds the enables are the same.
pub fn alike_enables_meet_premises()
    ensures { AlikeEnablesMeetPremises }
{}

/// Two such enables of which a frame with care for both tells that they differ, and that the first is 0.
pub fn unlike_enables_meet_premises()
    ensures { UnlikeEnablesMeetPremises }
{}

/// Such an enable that is 1 wherever it has care, though not in each frame.
pub fn always_meets_premises()
    ensures { AlwaysMeetsPremises }
{}

/// Two latches whose enables are one input: twins by their literals, which stay so while the next one gets its class, and while the graph grows.
pub fn twins_meet_premises()
    ensures { TwinsMeetPremises }
{}

/// A latch that is read, and what the same latch of another circuit takes over: one tree, and one enable.
pub fn equal_trees_meet_premises()
    ensures { EqualTreesMeetPremises }
{}
