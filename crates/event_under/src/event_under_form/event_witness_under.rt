//! What shows a difference of what is asked in the event form under an assumption on the inputs: a sequence or a frame.

mod frame;
mod ready;
mod sequence;
mod sides;

pub use crate::event_asked_under::{EventQuestions, UnderError, ask_under};
pub use frame::frame_of;
pub use ready::{ReadyDifference, ready_at};
pub use sequence::sequence_of;
