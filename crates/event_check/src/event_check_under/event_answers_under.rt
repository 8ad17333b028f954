//! From what is found of two circuits in the event form under an assumption to the answer of their comparison. It has definitions and lemmas alone.

pub use event_setup::event_meaning::event_meaning_under::{
    CompareError, Premise, TakeError, Taken, take, widen,
};
