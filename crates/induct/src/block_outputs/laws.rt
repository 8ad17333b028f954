//! What equal outputs say of two nets. No function here does anything: each contract is a law.

ghost use Rattle.induct.specs.block_outputs.Laws.{EqualOutputsAgree};

/// Where the answer to each pair is equal over the coarsest inductive partition, each output of A agrees with B's output of its name in
/// every cycle of all runs from the initial values with equal inputs.
pub fn equal_outputs_agree()
    ensures { EqualOutputsAgree }
{}
