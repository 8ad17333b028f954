//! That the premises of what is promised of classes of latches are met. The functions do nothing: each contract is an example.

ghost use Rattle.premise_rows.specs.event_class_premises.AlwaysFits.{AlwaysMeetsPremises};
ghost use Rattle.premise_rows.specs.event_class_premises.AtLimit.{LimitsMeetPremises};
ghost use Rattle.premise_rows.specs.event_class_premises.ClassLimit.{ClassLimitIsMet};
ghost use Rattle.premise_rows.specs.event_class_premises.ClassMap.{ClassMapMeetsPremises};
ghost use Rattle.premise_rows.specs.event_class_premises.Enables.{EnableMeetsPremises};
ghost use Rattle.premise_rows.specs.event_class_premises.Heavy.{HeavyMeetsPremises};
ghost use Rattle.premise_rows.specs.event_class_premises.Members.{MembersMeetPremises};
ghost use Rattle.premise_rows.specs.event_class_premises.OneNode.{NodesMeetPremises};
ghost use Rattle.premise_rows.specs.event_class_premises.Shifted.{ShiftMeetsPremises};
ghost use Rattle.premise_rows.specs.event_class_premises.Tables.{TablesMeetPremises};
ghost use Rattle.premise_rows.specs.event_class_premises.Totals.{TotalsMeetPremises};
ghost use Rattle.premise_rows.specs.event_class_premises.TwoEnables.{ApartMeetsPremises, FoundsMeetPremises};

/// Two latches that load under one input, one in each of two circuits: their class map from its beginning to its end.
pub fn class_map_meets_premises()
    ensures { ClassMapMeetsPremises }
{}

/// The table in which the second of them finds its class, and the query that would find it too.
pub fn tables_meet_premises()
    ensures { TablesMeetPremises }
{}

/// The class that the first of them founds, and that the second joins it.
pub fn members_meet_premises()
    ensures { MembersMeetPremises }
{}

/// Two latches that load under different inputs: an assignment tells the second from the class of the first.
pub fn apart_meets_premises()
    ensures { ApartMeetsPremises }
{}

/// So the second founds a class of its own.
pub fn founds_meet_premises()
    ensures { FoundsMeetPremises }
{}

/// A latch that reads itself and yet loads in each cycle is of class 0.
pub fn always_meets_premises()
    ensures { AlwaysMeetsPremises }
{}

/// Where no conflicts are allowed and the lists of variables are long, both meet the limit.
pub fn limits_meet_premises()
    ensures { LimitsMeetPremises }
{}

/// A latch that an input clears, in a gate that reads sixteen inputs more: the class map ends at the limit of its query.
pub fn class_limit_is_met()
    ensures { ClassLimitIsMet }
{}

/// What is counted of the enables of the two that load under one input.
pub fn totals_meet_premises()
    ensures { TotalsMeetPremises }
{}

/// A latch that loads under what another latch has taken over: what is counted of its enable, which reaches an event node besides the root.
pub fn nodes_meet_premises()
    ensures { NodesMeetPremises }
{}

/// The enable of a latch that loads under an input, as an event function.
pub fn enable_meets_premises()
    ensures { EnableMeetsPremises }
{}

/// A latch that loads by a cover of very many rows: its enable weighs more than is allowed.
pub fn heavy_meets_premises()
    ensures { HeavyMeetsPremises }
{}

/// A latch behind a shift register of 10,000 latches: its enable reaches more event nodes than are allowed.
pub fn shift_meets_premises()
    ensures { ShiftMeetsPremises }
{}
