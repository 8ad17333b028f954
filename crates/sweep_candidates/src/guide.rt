//! What guides windows and facts. No clause sees it.

/// What is known of the nodes of a graph, at their places: a node without a place is as far from the inputs as can be told, and no leaf.
#[derive(Clone, Copy)]
pub struct Guide<'a> {
    /// How many ands there are at most on a way from the inputs to each node.
    pub levels: &'a [u32],
    /// The nodes at which stages end: those of flip-flops.
    pub leaves: &'a [bool],
    /// The nodes that were merged with others, in the order of the merges.
    pub merged: &'a [u32],
}

/// The nodes of a part of a graph, increasing, and those among them that are known to agree with the literals that were chosen for them.
#[derive(Drop)]
pub struct Part {
    pub numbers: Vec<u32>,
    pub facts: Vec<u32>,
}
