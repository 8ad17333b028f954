//! Which nodes of a graph of two circuits may be tied to one another: those that seeded runs and counterexamples of inductive steps don't
//! tell apart. All of it are guesses, of which no contract says anything; what is tied is proved above.
#![tactic(auto)]

mod classes;
mod lanes;
mod marks;
mod runs;
mod scenes;
mod stage;
mod substitution;

pub use classes::Classes;
pub use marks::Marks;
pub use runs::{Flop, Premise, candidates};
pub use scenes::{Frame, Lesson, learn, no_model};
pub use substitution::Substitution;
