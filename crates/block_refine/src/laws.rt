//! What the coarsest inductive partition says of two nets. No function here does anything: each contract is a law.

ghost use Rattle.block_refine.specs.Laws.{OutputsAgree};

/// Where each output of A has the value of B's output of its name for all values that are constant on the blocks of the coarsest
/// inductive partition, the two agree in every cycle of all runs from the initial values with equal inputs.
pub fn outputs_agree()
    ensures { OutputsAgree }
{}
