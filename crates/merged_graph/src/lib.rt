//! A graph beside one that grows, in which nodes that are proved to agree are one: what was made one stays so while both grow.
#![tactic(auto)]

pub mod laws;
mod merged;
mod searches;
mod stand_ins;
mod targets;
mod words;

pub use merged::MergedGraph;
