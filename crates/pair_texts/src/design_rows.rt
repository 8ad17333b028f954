//! What every net of some small designs is. The functions do nothing: each contract is an example.
//!
//! Computed tests of designs: that one has no fault, and that ranks rule out cycles of latches. None of these functions does anything: each contract
//! is a law.

ghost use Rattle.pair_texts.specs.design_rows.Small.{OnAndIsSmall, OffAndIsSmall, LateIsSmall, EarlyIsSmall, HierIsSmall, TwoIsSmall, ToggleIsSmall, IdleIsSmall, RingIsSmall};

/// An `and` by its one row.
pub fn on_and_is_small()
    ensures { OnAndIsSmall }
{}

/// An `and` by the rows where it is 0.
pub fn off_and_is_small()
    ensures { OffAndIsSmall }
{}

/// An `and` with a latch behind it.
pub fn late_is_small()
    ensures { LateIsSmall }
{}

/// An `and` with a latch at each input.
pub fn early_is_small()
    ensures { EarlyIsSmall }
{}

/// An `and` in an instance, with a latch behind it.
pub fn hier_is_small()
    ensures { HierIsSmall }
{}

/// Two latches in a row.
pub fn two_is_small()
    ensures { TwoIsSmall }
{}

/// A latch that takes over its own value, turned: it lies on a cycle, and is to be cut open.
pub fn toggle_is_small()
    ensures { ToggleIsSmall }
{}

/// A latch that feeds no output.
pub fn idle_is_small()
    ensures { IdleIsSmall }
{}

/// Two latches that take over each other: either breaks the ring.
pub fn ring_is_small()
    ensures { RingIsSmall }
{}

ghost use Rattle.pair_texts.specs.design_rows.Laws.{TestedIsSound, RankedIsAcyclic};

/// A design without clocks that passes the computed test has no fault.
pub fn tested_is_sound()
    ensures { TestedIsSound }
{}

/// Ranks over a design's places that rise along readings rule out cycles of latches in its nets.
pub fn ranked_is_acyclic()
    ensures { RankedIsAcyclic }
{}
