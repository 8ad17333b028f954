//! What is found of pairs in the event form, told by the names of inputs and latches.

pub mod event_fits;
mod names;

pub use event_fits::{
    CompareError, EnabledLatches, EventSetup, RecoveryError, recover_both, set_up_events,
};
pub use names::{Names, latch_names, named_latch, named_other, named_verdict};
