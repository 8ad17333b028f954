//! The and-inverter graph of two function trees, whose nodes are numbered by the trees alone: not by the circuits that the trees are of,
//! nor by what else has been made of them. So whoever makes it has the same graph.
#![tactic(auto)]

mod covers;
mod graphs;
mod laws;
mod reads;
mod starts;
mod walk;

pub use covers::MOST_NODES;
pub use graphs::{Rooted, TreeGraph, graph_of_trees};
pub use laws::one_graph;
