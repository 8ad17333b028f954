//! Two circuits with latches cut open by their names: the cut nets, which of their latches count as enabled, and the pairs of their
//! outputs by their places.

mod opened_latches;
mod pairs;
mod sides;

pub use pairs::pairs_of;
pub use sides::{CutSide, cut_side};
