//! Circuits that are one up to the numbers of their places: what a net of a design is, and what two nets of one design share.
//! None of these functions does anything: each contract is a law.

ghost use Rattle.net_assembly.specs.net_alike.Laws.{WeightIsCarried, DepthIsCarried, EdgesAreCarried, ReadsAreCarried, RunsAreCarried, CutsAreCarried, TreesAreCarried, MinimalCutsAreCarried};

/// A renumbering carries the weight of an unfolding, and whether it is over a cap.
pub fn weight_is_carried()
    ensures { WeightIsCarried }
{}

/// A renumbering carries the sequential depth.
pub fn depth_is_carried()
    ensures { DepthIsCarried }
{}

/// A renumbering carries the edges and the cycles of the latch graph.
pub fn edges_are_carried()
    ensures { EdgesAreCarried }
{}

/// A renumbering carries what is read.
pub fn reads_are_carried()
    ensures { ReadsAreCarried }
{}

/// A renumbering carries runs and their marks.
pub fn runs_are_carried()
    ensures { RunsAreCarried }
{}

/// A renumbering of two circuits is one of their cuts.
pub fn cuts_are_carried()
    ensures { CutsAreCarried }
{}

/// A renumbering carries plain unfoldings.
pub fn trees_are_carried()
    ensures { TreesAreCarried }
{}

/// Renumberings carry the minimal cuts of two circuits.
pub fn minimal_cuts_are_carried()
    ensures { MinimalCutsAreCarried }
{}
