//! A computed example of a comparison in the event form under an assumption, as a contract: its outcome is what the comparison answers.

ghost use Rattle.premise_rows.specs.event_outcome_samples.Different.{IsAnswered, IsFull, IsOverfull};

/// Two circuits that show different inputs differ under the assumption that the second input is 1, whether latches may be cut open or not.
pub fn different_outputs()
    ensures { IsAnswered }
{}

/// An assumption of the weight 1,999,999 isn't too large for their one pair, whose variables stand at the root alone.
pub fn just_light()
    ensures { IsFull }
{}

/// One of the weight 2,000,000 is.
pub fn just_over()
    ensures { IsOverfull }
{}
