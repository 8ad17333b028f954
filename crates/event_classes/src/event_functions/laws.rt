//! What the variables of event functions are. The function does nothing: its contract is a law.

ghost use Rattle.event_classes.specs.event_functions.Laws.{SignalsAreCovered};

/// The variables of a signal's function are all that its value and its care read.
pub fn signals_are_covered()
    ensures { SignalsAreCovered }
{}
