//! The clauses of a query.

use aig::Ids;
use proof_check::Clauses;

/// Clauses over the nodes of a graph: variable k, from 1 on, stands for node `nodes[k - 1]`.
#[derive(Drop)]
pub struct Cnf {
    pub clauses: Clauses,
    pub variables: u32,
    pub nodes: Ids,
}
