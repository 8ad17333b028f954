//! What is found of a pair in a cycle under an assumption. The function does nothing: its contract is the law.

ghost use Rattle.plain_check.specs.asked_under.reset_asked_under.Laws.{CyclesFitUnder};

/// The query of a pair in a cycle, put under an assumption, is one of the graph, and what is found of it is true of the pair in this cycle
/// under the assumption.
pub fn cycles_fit_under()
    ensures { CyclesFitUnder }
{}
