//! What the queries of cycles under an assumption say of the runs that meet it. None of these functions does anything: each contract is a
//! law.

ghost use Rattle.cycle_under.specs.Laws.{EqualUpToAgreeUnder, EqualToDepthsAgreeUnder, WitnessDiffersUnder};

/// Equal functions of each pair in the cycles up to a last one, where the assumption is met up to each, mean agreement in these cycles of the
/// runs that meet it.
pub fn equal_up_to_agree_under()
    ensures { EqualUpToAgreeUnder }
{}

/// Where the last cycle is as great as the depth of each pair, it means agreement in every cycle.
pub fn equal_to_depths_agree_under()
    ensures { EqualToDepthsAgreeUnder }
{}

/// The sequence that is printed for a pair meets the assumption, and with its power-ups it makes the pair differ.
pub fn witness_differs_under()
    ensures { WitnessDiffersUnder }
{}
