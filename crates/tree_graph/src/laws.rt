//! What follows for the graph of two trees.

ghost use Rattle.tree_graph.specs.Numbering.{HaveOneGraph};

/// Two trees have one graph. It does nothing: its contract is a law.
pub fn one_graph()
    ensures { HaveOneGraph }
{}
