//! When both sides of a pair are settled together, and pairs that never are.

ghost use Rattle.assume_laws.specs.settle_laws.Settles.{PlainPairsSettle, WithoutCareNeverSettled, WithoutCareNeverSettledExposed, WithoutCareNeverSettledCut, WithoutCareNeverSettledUnder, SideWithoutCareNeverSettled, QueryWithoutCare};

/// A pair for which no frame has care on both sides is settled in no cycle of two runs with equal inputs.
pub fn without_care_never_settled()
    ensures { WithoutCareNeverSettled }
{}

/// The same of the circuits themselves, by frames of the circuits that are cut at a minimal cut.
pub fn without_care_never_settled_exposed()
    ensures { WithoutCareNeverSettledExposed }
{}

/// And of the cut circuits.
pub fn without_care_never_settled_cut()
    ensures { WithoutCareNeverSettledCut }
{}

/// By the pair's query: its care is never met.
pub fn query_without_care()
    ensures { QueryWithoutCare }
{}

/// A side for which no frame has care is settled in no cycle of two runs with equal inputs, whatever the other side does.
pub fn side_without_care_never_settled()
    ensures { SideWithoutCareNeverSettled }
{}

/// The same of the circuits themselves under an assumption, by frames of the cut circuits that meet it.
pub fn without_care_never_settled_under()
    ensures { WithoutCareNeverSettledUnder }
{}

/// In the plain mode a pair is settled in both circuits in exactly the cycles from its depth on.
pub fn plain_pairs_settle()
    ensures { PlainPairsSettle }
{}
