//! What is compared of two circuits in the event form, and what is found of it; what shows a difference, and what is told of a pair whose
//! difference shows nothing. How answers are found is no matter here.

pub mod event_witness;
mod findings;
mod pairs;
pub mod unshown_pairs;
mod verdict;

pub use crate::event_findings::event_witness::{
    Frame, LimitAt, Separation, Separations, Spot, Spots, Unshown, UnshownFrame, Verdict, Why,
    unshown_at, witness_at,
};
pub use crate::event_findings::unshown_pairs::{
    Apart, EventError, EventFormError, Events, FrameBit, Separated, ToldSeparation,
    ToldSeparations, ask_pairs, events_of, tell_apart,
};
pub use findings::EventFindings;
pub use pairs::EventPairs;
pub use verdict::{EventVerdict, UnshownPair};
