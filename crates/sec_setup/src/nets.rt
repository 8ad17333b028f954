//! Two nets beside one another.

use crate::cut_points::LatchGraph;
use crate::ports::Net;

/// Two nets, A's and B's, and the latch graph of each.
#[derive(Clone, Copy)]
pub struct Nets<'a> {
    pub left: &'a Net,
    pub right: &'a Net,
    pub left_graph: &'a LatchGraph,
    pub right_graph: &'a LatchGraph,
}
