//! What is known of a net behind a sequence of inputs, whatever its latches power up with, by three-valued simulation; and the net that
//! begins there, with what is told of it.
#![tactic(auto)]

mod cover;
mod cycle;
mod report;
mod sequence;
mod start;
mod three_run;

pub use cycle::{compute, take_over};
pub use report::{put_after, put_unknown};
pub use sequence::shown_behind;
pub use start::{begin, restart};
pub use three_run::{columns_of, known_behind, known_output};
