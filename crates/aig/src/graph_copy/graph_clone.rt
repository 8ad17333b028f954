//! A whole graph made again: its functions in a graph of their own, which can then grow by others.

mod copies;

pub use copies::{GraphCopy, copy_graph, literal_for};
