//! What an outcome that fits two circuits in the event form under an assumption on their inputs says of them.
//!
//! What it means that an outcome fits two circuits in the event form under an assumption on their inputs, and what a comparison answers: an outcome that
//! fits, or the first refusal with its cause. It has definitions alone.

mod laws;

pub use laws::{
    answers_are_exact_under, cut_outcomes_differ_under, different_outcomes_differ_under,
    equal_outcomes_agree_under, unshown_outcomes_are_framed_under,
};
pub use plain_check::under_base::{CompareError, Premise, TakeError, Taken, take, widen};
