//! Makes nodes of an and-inverter graph one where they are proved to agree.

mod graph;
mod growth;

pub use crate::node_agreement::{
    Decision, Effort, Query, SameBy, SignatureTable, decide, signatures,
};
pub use aig::{Aig, Bits, Ids, Lit, Lits, MAX_CONFLICTS, NoMemory, Node};
pub use graph::{Swept, sweep, sweep_across};
