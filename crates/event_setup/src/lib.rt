//! What two circuits are compared by in the event form: which of their latches are enabled, the latches that are cut open, and both circuits with
//! these cut out, their inputs numbered, before their latches are given classes. It knows no event graph.
#![tactic(auto)]

mod choice;
mod circuits;
mod cutting;
mod depths;
mod enables;
mod error;
pub mod event_meaning;
mod numbering;
pub mod read_inputs;
mod setup;

pub use enables::{EnabledLatches, recover_both};
pub use error::RecoveryError;
pub use setup::{EventSetup, set_up_events};
