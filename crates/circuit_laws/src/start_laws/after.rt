//! Runs that begin with a sequence of inputs.

ghost use Rattle.circuit_laws.specs.start_laws.Laws.{CoverForces, KnownAfterRows, ThreeRunIsKnown, ThreeRunIsOne, StartsOfThreeRun, TailIsResetRun, AgreeFromStarts, AgreeUpToFromStarts, OneSideBegins};

/// What a cover gives three-valued bits is what it gives all bits that complete them.
pub fn cover_forces()
    ensures { CoverForces }
{}

/// What is known in a cycle is so in every run that begins with the rows, whatever the latches power up with.
pub fn known_after_rows()
    ensures { KnownAfterRows }
{}

/// What a three-valued run over the rows has is known.
pub fn three_run_is_known()
    ensures { ThreeRunIsKnown }
{}

/// A run that begins with the rows is, from the cycle behind them, a run from initial values: those of the latches that are known there.
pub fn tail_is_reset_run()
    ensures { TailIsResetRun }
{}

/// Circuits that agree from what is known behind the rows agree from there on in any two runs with equal inputs that begin with the rows.
pub fn agree_from_starts()
    ensures { AgreeFromStarts }
{}

/// There is one three-valued run of a net over the rows.
pub fn three_run_is_one()
    ensures { ThreeRunIsOne }
{}

/// Agreement of so many cycles from what is known behind the rows is agreement of so many cycles behind them.
pub fn agree_up_to_from_starts()
    ensures { AgreeUpToFromStarts }
{}

/// In two runs with equal inputs one begins with the rows if the other does.
pub fn one_side_begins()
    ensures { OneSideBegins }
{}

/// What a three-valued run knows of latches behind the rows are initial values of a net.
pub fn starts_of_three_run()
    ensures { StartsOfThreeRun }
{}
