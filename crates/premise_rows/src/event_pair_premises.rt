//! That the premises of what is promised of pairs in the event form are met. The functions do nothing: each contract is an example.

ghost use Rattle.premise_rows.specs.event_pair_premises.Comparable.{PairCanBeCompared};
ghost use Rattle.premise_rows.specs.event_pair_premises.Counted.{FunctionsMeetPremises, PairIsCounted};
ghost use Rattle.premise_rows.specs.event_pair_premises.Crossed.{CaredMeetPremises};
ghost use Rattle.premise_rows.specs.event_pair_premises.CrossedCompared.{CrossedPairCanBeCompared};
ghost use Rattle.premise_rows.specs.event_pair_premises.Differing.{DifferencesMeetPremises};
ghost use Rattle.premise_rows.specs.event_pair_premises.Held.{EqualitiesMeetPremises};
ghost use Rattle.premise_rows.specs.event_pair_premises.HeldCompared.{HeldPairCanBeCompared};
ghost use Rattle.premise_rows.specs.event_pair_premises.Turning.{CutPairsMeetPremises, OneTreeMeetsPremises};

/// The pair of two circuits that show different inputs: its query, what is asked of it, the least difference, and the answers on it.
pub fn differences_meet_premises()
    ensures { DifferencesMeetPremises }
{}

/// Their pair as it is compared: all that is asked for, the sequence of the difference, and what is found.
pub fn pair_can_be_compared()
    ensures { PairCanBeCompared }
{}

/// What was counted of it.
pub fn pair_is_counted()
    ensures { PairIsCounted }
{}

/// A latch that loads an input under another one, and one that loads its complement, behind which the output is the latch's complement: the query
/// of the pair, what is asked of it, the answer that both are equal, and so that the circuits agree.
pub fn equalities_meet_premises()
    ensures { EqualitiesMeetPremises }
{}

/// Their outputs as event functions.
pub fn functions_meet_premises()
    ensures { FunctionsMeetPremises }
{}

/// Their pair as it is compared, with what tells its class from `always`, and what is found.
pub fn held_pair_can_be_compared()
    ensures { HeldPairCanBeCompared }
{}

/// The output of the first of them beside the latch of the second: the frame with care in which they differ, and the answer that this shows nothing.
pub fn cared_differences_meet_premises()
    ensures { CaredMeetPremises }
{}

/// These two as they are compared, and what is found of them.
pub fn crossed_pair_can_be_compared()
    ensures { CrossedPairCanBeCompared }
{}

/// A latch that turns over in each cycle, by other rows: with it cut open in both, the queries of the output and of what the latch takes over,
/// and so that the circuits agree.
pub fn cut_pairs_meet_premises()
    ensures { CutPairsMeetPremises }
{}

/// As they are cut, the outputs of both: they have one tree, and so one literal.
pub fn one_tree_meets_premises()
    ensures { OneTreeMeetsPremises }
{}
