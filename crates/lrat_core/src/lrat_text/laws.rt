//! Laws of the definitions that contracts cite. Each is the contract of a function that does nothing.

ghost use Rattle.lrat_core.specs.lrat_text.Laws.{TextHasOneVerdict, AcceptedTextRefutes, TwoUnitsAreRefuted};

/// A text is accepted at one line, or it has one first fault of one kind.
pub fn text_has_one_verdict()
    ensures { TextHasOneVerdict }
{}

/// Where a text is accepted, no assignment meets all clauses.
pub fn accepted_is_unsatisfiable()
    ensures { AcceptedTextRefutes }
{}

/// A text that meets the premise of `accepted_is_unsatisfiable`.
pub fn accepted_text_is_met()
    ensures { TwoUnitsAreRefuted }
{}
