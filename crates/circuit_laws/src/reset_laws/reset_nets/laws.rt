//! The laws. None of these functions does anything: each contract is a law that is proved for all circuits that it speaks of.

ghost use Rattle.circuit_laws.specs.reset_laws.reset_nets.Laws.{NetsHaveStarts};

/// The circuit of a net has its latches in their order, each once, with their own initial values.
pub fn nets_have_starts()
    ensures { NetsHaveStarts }
{}
