//! The places that the unfoldings of a net's signals visit, a place being a signal some cycles ago: those that were met, with
//! their literals, what each reads and counts, which signals visit which, and the inputs among them. Here stands what an
//! unfolding answers, a literal with its variables or why there is none, whatever runs it is of.

mod error;
pub mod listing;
pub mod literals;
pub mod reached;
pub mod reads;
mod signal_function;
pub mod variables;
pub mod visitors;

pub use aig::graph_copy::memo;
pub use error::UnfoldError;
pub use flat_net::{BitRows, Bits, Ids, NoMemory, PlaceTable, Seq};
pub use signal_function::Unfolded;
