//! That the premises of what is promised of a pair whose query met the limit are met. The functions do nothing: each contract is an example.

ghost use Rattle.premise_rows.specs.event_limit_premises.AtLimit.{LimitMeetsPremises};
ghost use Rattle.premise_rows.specs.event_limit_premises.Found.{PairAtLimitCanBeCompared};
ghost use Rattle.premise_rows.specs.event_limit_premises.OneConflict.{OneConflictMeetsPremises};

/// The pair of an input and of a gate with seventeen fan-ins that is as that input: its query, the clauses of it, and the answer at the limit where no
/// conflict is allowed.
pub fn limit_meets_premises()
    ensures { LimitMeetsPremises }
{}

/// Their pair as it is compared, and what is found of it.
pub fn pair_at_limit_can_be_compared()
    ensures { PairAtLimitCanBeCompared }
{}

/// The same where one conflict is allowed: the log has the clause that is learned from it.
pub fn one_conflict_meets_premises()
    ensures { OneConflictMeetsPremises }
{}
