//! Queries over a graph, each decided over a swept graph where that helps: there nodes that are proved to agree are one.
#![tactic(auto)]

mod apart;
mod choice;
mod constants;
pub mod node_agreement;
mod queries;
mod query;
mod roots;
mod rounds;
mod sides;
pub mod sweep;
mod targets;
mod words;

pub use queries::{SweptQueries, sweep_queries};
pub use sides::{Known, Sides};
pub use words::put_models;
