//! What follows for the literal of an unfolded signal. None of these functions does anything: each contract is a law.

ghost use Rattle.cbf_unfold.specs.Laws.{FitsLater, UnfoldedLater, EqualTreesOneLiteral, LiteralIsRun, Windows, VariablesCoverCone, ReachedFromOne, ConstantReachesNone};

/// What an unfolder keeps goes on to fit a graph and a table that others let grow.
pub fn fits_later()
    ensures { FitsLater }
{}

/// A literal and its variables go on to be the unfolding of the signal while the graph and the table grow.
pub fn unfolded_later()
    ensures { UnfoldedLater }
{}

/// Signals with equal trees have one literal on one graph and table, whichever unfolders gave them.
pub fn equal_trees_one_literal()
    ensures { EqualTreesOneLiteral }
{}

/// In every run, in every cycle in which the signal is settled, its literal has the run's value.
pub fn literal_is_run()
    ensures { LiteralIsRun }
{}

/// For every assignment of variables the distinguishing sequence gives the signal the literal's value, in every run and
/// in the last cycle.
pub fn windows()
    ensures { Windows }
{}

/// The variables of an unfolded signal are distinct, and cover the cone of its literal.
pub fn variables_cover_cone()
    ensures { VariablesCoverCone }
{}

/// A node that is reached from several literals is reached from one of them.
pub fn reached_from_one()
    ensures { ReachedFromOne }
{}

/// No variable is reached from a constant.
pub fn constant_reaches_none()
    ensures { ConstantReachesNone }
{}
