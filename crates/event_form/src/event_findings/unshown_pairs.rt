//! What is told of a pair whose difference says nothing of the circuits: whether it reaches class 0 alone, and else what tells apart each two
//! classes that occur in the paths of its event nodes.

pub mod class_events;
mod classes;
mod reach;
mod separations;
mod telling;

pub use crate::{EventFormError, FrameBit, ask_pairs};
pub use class_events::{Apart, EventError, Events, Separated, events_of};
pub use reach::{PairReach, reach_of};
pub use sec_setup::ports::SignalPair;
pub use separations::{ToldSeparation, ToldSeparations};
pub use telling::tell_apart;
