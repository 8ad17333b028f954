//! And-inverter graphs: two-operand ands and complements, where equal nodes are one; and what is made in one graph of another's
//! literals.
#![tactic(auto)]

mod cone;
mod cone_graph;
mod covers;
mod graph;
pub mod graph_copy;
pub mod lane_eval;
mod merging;
mod node;
mod node_places;
mod values;

pub use cone_graph::{Cones, Nodes, cones_of};
pub use graph::Aig;
pub use merging::{OrderedVariables, merge};
pub use node::{Lit, Lits, Node};
pub use sec_base::{Bits, Ids, MAX_CONFLICTS, MAX_TABLE_VARIABLES, NoMemory, Seq, Side};
pub use values::node_bits;
