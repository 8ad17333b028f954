//! Event nodes by their places in the order in which variables go.

mod nodes;
mod ranks;

pub use nodes::copy_nodes;
pub use ranks::{RankedNodes, ranks_of};
