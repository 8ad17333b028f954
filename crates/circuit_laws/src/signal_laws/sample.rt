//! An example that meets the premises of the laws.

ghost use Rattle.circuit_laws.specs.signal_laws.Toggles.{TogglesAgree};

/// Two toggling latches, one of which has the complement of the other: their signals are tied, so the circuits agree.
pub fn toggles_agree()
    ensures { TogglesAgree }
{}
