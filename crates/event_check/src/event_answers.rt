//! What comparisons in the event form share, with an assumption on the inputs and without one: the steps up to the pairs, what is refused there,
//! the outcome by what is found of the pairs, and laws of what a setup gives, each the contract of a function that does nothing.

mod limits;
mod outcomes;
mod reaching;

ghost use Rattle.event_check.specs.event_answers.Laws.{EqualSetupsAgree, SetupsAreCompared, UncutSetupsAreWhole};

pub use event_comparison::{EventFindings, EventFormError, EventPairs, Separated, compare_events};
pub use event_setup::event_meaning::event_names::Names;
pub use outcomes::{Found, Settled, limit_found, named_findings, outcome_of};
pub use reaching::{Asked, Classed, Reached, reach_pairs};

/// The two circuits of a setup are as they are to be compared, once their latches have their classes.
pub fn setups_are_compared()
    ensures { SetupsAreCompared }
{}

/// Where all pairs of a setup are equal, the two nets agree in the event mode, and agree onward.
pub fn equal_setups_agree()
    ensures { EqualSetupsAgree }
{}

/// Where no latch is cut open, the circuits of a setup are those of the nets themselves.
pub fn uncut_setups_are_whole()
    ensures { UncutSetupsAreWhole }
{}
