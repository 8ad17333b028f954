//! What follows for the literal of a signal that is unfolded in a cycle. None of these functions does anything: each
//! contract is a law.

ghost use Rattle.reset_form.specs.reset_unfold.Laws.{ResetFitsLater, ResetUnfoldedLater, EqualResetTreesOneLiteral, ResetLiteralIsRun, ResetVariablesCoverCone};

/// What an unfolder keeps goes on to fit a graph and a table that others let grow.
pub fn reset_fits_later()
    ensures { ResetFitsLater }
{}

/// A literal and its variables go on to be the unfolding of the signal in its cycle while the graph and the table grow.
pub fn reset_unfolded_later()
    ensures { ResetUnfoldedLater }
{}

/// Signals with equal trees have one literal on one graph and table, in whichever cycles and by whichever unfolders.
pub fn equal_reset_trees_one_literal()
    ensures { EqualResetTreesOneLiteral }
{}

/// In every run from the initial values the literal has the run's value in its cycle.
pub fn reset_literal_is_run()
    ensures { ResetLiteralIsRun }
{}

/// The variables of a signal that is unfolded in a cycle are distinct, and cover the cone of its literal.
pub fn reset_variables_cover_cone()
    ensures { ResetVariablesCoverCone }
{}
