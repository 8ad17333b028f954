//! The classes of the enabled latches of two circuits: latches of one class load together wherever a comparison looks at them (after the
//! event-driven Boolean functions of Ranjan, Singhal, Somenzi and Brayton, DATE 1999).
#![tactic(auto)]

mod enables;
mod error;
pub mod event_functions;
mod joining;
mod making;
mod map;
mod places;

pub use class_search::class_separations::Apart;
pub use error::EventError;
pub use event_nodes::EventCircuit;
pub use making::make_classes;
pub use map::ClassMap;
