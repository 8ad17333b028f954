//! What the answers to queries under an assumption say. None of these functions does anything: each contract is a law.

ghost use Rattle.assume_queries.specs.assume_answers.Laws.{AnswersUnder};

/// A query under an assumption is one of the graph. Where its sides are the same, the trees of both sides have equal values wherever
/// the assumption is met at their variables; and a difference is one of these trees under the assumption. Its variables and its care are
/// those of the pair's query under the assumption.
pub fn answers_under()
    ensures { AnswersUnder }
{}
