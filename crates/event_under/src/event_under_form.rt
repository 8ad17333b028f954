//! Two circuits compared in the event form under an assumption on the inputs, once their latches have their classes: what is asked is
//! decided, and what shows the verdict is made.

mod asking;
mod comparison;
mod error;
pub mod event_under_verdicts;
pub mod event_witness_under;
mod verdict;

pub use asking::questions_of;
pub use comparison::compare_events_under;
pub use error::EventUnderError;
