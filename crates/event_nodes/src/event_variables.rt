//! The order of inputs at event nodes, as variables of queries: longer paths first, then by path in the order of class numbers, then by
//! input.
//!
//! The inputs that an event unfolding visits, each at its event node, as variables in their order; and that these are the variables of
//! the unfolding's trees, those of its care among them.

pub mod frame_sequences;
pub mod laws;
mod merge;
mod node_order;
mod ordering;
mod paths;
pub mod ranked_nodes;
mod visited;

pub use crate::{
    Aig, Bits, Counter, EventCircuit, EventGraph, EventUnfoldError, Ids, Lit, MAX_CONFLICTS, Net,
    NoMemory, Place, Side, Signal, Tag,
};
pub use merge::merge_variables;
pub use node_order::variable_order;
pub use ordering::in_order;
pub use paths::node_path;
pub use visited::visited_variables;
