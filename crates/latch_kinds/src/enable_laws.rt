//! The laws of which latches count as enabled. None of these functions does anything: each contract is a law.

ghost use Rattle.latch_kinds.specs.enable_laws.Laws.{DepthsDependOnEnabled, CyclesDependOnEnabled, MarksDependOnEnabled, GraphsCountTheirLatches, BitsCountTheirLatches};

/// Sequential depths depend on nothing but which latches count as enabled, however that is said.
pub fn depths_depend_on_enabled()
    ensures { DepthsDependOnEnabled }
{}

/// So do the cycles of the latch graph.
pub fn cycles_depend_on_enabled()
    ensures { CyclesDependOnEnabled }
{}

/// And so do the marks of a run.
pub fn marks_depend_on_enabled()
    ensures { MarksDependOnEnabled }
{}

/// A latch graph of a mode leaves out the self-edges of exactly the latches that count as enabled in the mode.
pub fn graphs_count_their_latches()
    ensures { GraphsCountTheirLatches }
{}

/// Bits that mark the enabled latches of a mode say of exactly those that they are enabled.
pub fn bits_count_their_latches()
    ensures { BitsCountTheirLatches }
{}
