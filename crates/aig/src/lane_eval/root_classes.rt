//! Roots of an and-inverter graph that agree, by all assignments where its inputs are few, and the variables that a graph has.

mod inputs;
mod leads;
mod narrow;
mod partition;

pub use crate::lane_eval::{SignatureTable, signatures, table_differs};
pub use crate::{Aig, Bits, Ids, Lit, MAX_CONFLICTS, MAX_TABLE_VARIABLES, NoMemory, Node};
pub use inputs::variables;
pub use leads::leads_of;
