//! What the names of a stimulus are to two circuits: whether they fit, and which latches they cut open.

mod error;
mod header;
mod opened_latches;

pub use error::ReplayError;
pub use opened_latches::opened_by;
