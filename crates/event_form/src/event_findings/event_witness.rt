//! What shows a difference in the event form: a sequence or a frame.

pub mod laws;
mod shown;
mod sides;
mod unshown;
mod witness;

pub use obligations::outcome::{
    Frame, LimitAt, PairName, PairResults, Separation, Separations, Spot, Spots, Unshown, Verdict,
    Why, Witness,
};
pub use shown::{unshown_at, witness_at};
pub use unshown::{UnshownFrame, unshown_of};
pub use witness::witness_of;
