//! An example with latches that read themselves.

ghost use Rattle.circuit_laws.specs.cycle_laws.Samples.{ToggleDiffers};

/// A toggle from 0 differs in cycle 1 from a latch that keeps 0.
pub fn toggle_differs()
    ensures { ToggleDiffers }
{}
