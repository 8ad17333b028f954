//! What visited inputs are. None of these functions does anything: each contract is a law.

ghost use Rattle.event_nodes.specs.event_variables.Laws.{VisitedInputsAreInputs, SignalInputsAreVariables, EnableInputsAreVariables};

/// The variables of the places that a start visits are those of the inputs that it visits.
pub fn visited_inputs_are_inputs()
    ensures { VisitedInputsAreInputs }
{}

/// The inputs that a signal visits are the variables of its function and of its care.
pub fn signal_inputs_are_variables()
    ensures { SignalInputsAreVariables }
{}

/// The inputs that the enable of an enabled latch visits are the variables of the enable and of its care.
pub fn enable_inputs_are_variables()
    ensures { EnableInputsAreVariables }
{}
