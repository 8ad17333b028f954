//! What is found fits. This function does nothing: its contract is a law.

ghost use Rattle.event_under.specs.event_under_form.event_under_verdicts.Laws.{VerdictsFitUnder};

/// Where each query was decided and the verdict is shown, what is found of the pairs fits the circuits under the assumption.
pub fn verdicts_fit_under()
    ensures { VerdictsFitUnder }
{}
