//! The laws of what is decided. None of these functions does anything: each contract is a law.

ghost use Rattle.circuit_laws.specs.finite_laws.Laws.{EnabledIsDecided, EnabledIsDecidedBeside};

/// It is known of each latch of a flat net whether it is enabled.
pub fn enabled_is_decided()
    ensures { EnabledIsDecided }
{}

/// The same of the latches of two nets side by side.
pub fn enabled_is_decided_beside()
    ensures { EnabledIsDecidedBeside }
{}
