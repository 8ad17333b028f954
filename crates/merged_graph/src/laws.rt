//! What follows for a graph beside another one. The function does nothing: its contract is a law.

ghost use Rattle.merged_graph.specs.Laws.{MergedLater};

/// The graph goes on to stand beside the other one while that grows.
pub fn merged_later()
    ensures { MergedLater }
{}
