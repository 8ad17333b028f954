//! What stays of a class map where the next latch is given its class, and what two circuits have side by side. None of these functions does anything: each contract is a law.

ghost use Rattle.circuit_laws.specs.reset_laws.class_extension.Laws.{VariablesStay, SeparationsStay, SeparationsBegin, VisitsStay, SidesHaveVariables, SidesReachNodes};

/// The variables of the enables of latches that were taken stay so where the next latch is given its class.
pub fn variables_stay()
    ensures { VariablesStay }
{}

/// Separations stay so where the next latch is given its class.
pub fn separations_stay()
    ensures { SeparationsStay }
{}

/// Where the next latch founds a class, what tells it from a member of another class is the separation of the two.
pub fn separations_begin()
    ensures { SeparationsBegin }
{}

/// What the enables of latches that were taken visit and reach stays so where the next latch is given its class.
pub fn visits_stay()
    ensures { VisitsStay }
{}

/// Side by side an enable has the variables that it has in its circuit.
pub fn sides_have_variables()
    ensures { SidesHaveVariables }
{}

/// Side by side two circuits reach the event nodes that either reaches by itself.
pub fn sides_reach_nodes()
    ensures { SidesReachNodes }
{}
