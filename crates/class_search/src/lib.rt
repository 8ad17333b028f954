//! Where a latch's load enable finds its class: `always`, or one of the classes, which are asked one after the other, each
//! with all its members; the order in which latches are given classes, and what tells each two classes apart.
//!
//! Class queries: whether the load enables of two latches agree wherever both have care, whether an enable is 1 wherever it has care, and
//! the first member of a class that an enable isn't known to agree with.
#![tactic(auto)]

mod class;
pub mod class_fits;
pub mod class_separations;
mod compare;
pub mod event_order;
mod fitting;
mod search;
mod told;

pub use class::Class;
pub use compare::{Compared, Enable, compare_always, compare_enables};
pub use event_nodes::event_variables::{
    Aig, Counter, EventCircuit, EventGraph, EventUnfoldError, Ids, Lit, NoMemory, Side, Signal,
    merge_variables, node_path,
};
pub use fitting::{Unlike, first_unlike};
pub use pair_decide::{Decision, Proof, Query};
pub use search::{Fit, Unfit, first_fit};
pub use told::{Difference, Told};
