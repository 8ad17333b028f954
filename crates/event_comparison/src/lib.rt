//! Two circuits compared in the event form, once their latches have their classes.
#![tactic(auto)]

mod comparison;
mod verdict;

pub use comparison::compare_events;
pub use event_form::event_findings::{
    EventError, EventFindings, EventFormError, EventPairs, EventVerdict, FrameBit, Separated,
    ToldSeparation, ToldSeparations, UnshownFrame, UnshownPair, events_of,
};
