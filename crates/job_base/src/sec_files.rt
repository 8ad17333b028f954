//! Loading files: circuits as flat nets, and stimuli.
//!
//! A circuit without ports over the names of its signals: what a net of it is, and that it has one net.
//! The function does nothing: its contract is a law.

pub mod job_files;
mod loader;
mod stimuli;

ghost use Rattle.job_base.specs.sec_files.Named.{NamesArePlaces};

pub use aiger_read::{AigerError, AigerKind};
pub use flatten::FlatError;
pub use loader::{LoadError, load};
pub use stimuli::{StimulusError, load_stimulus};

/// A net of a circuit whose signals have names is a net of the circuit over these names.
pub fn names_are_places()
    ensures { NamesArePlaces }
{}
