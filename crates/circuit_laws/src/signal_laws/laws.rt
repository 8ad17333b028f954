//! The laws. None of these functions does anything: each contract is a law.

ghost use Rattle.circuit_laws.specs.signal_laws.Laws.{TiesHold, TiedOutputsAgree};

/// Ties that are an inductive invariant of two circuits side by side hold in every cycle of two runs from the initial values with equal
/// inputs.
pub fn ties_hold()
    ensures { TiesHold }
{}

/// Where they give the outputs of each name one value, the circuits agree in every cycle from the initial values.
pub fn tied_outputs_agree()
    ensures { TiedOutputsAgree }
{}
