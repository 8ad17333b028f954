//! Frames, the values that inputs have at event nodes, and a frame as text.

mod frame;
mod text;

pub use frame::{Frame, Spot, Spots};
pub use text::put_frame;
