//! A computed example of inductive partitions. Its functions do nothing: each contract is an example that meets what laws ask.

ghost use Rattle.std.specs.Prelude.{ℕ, ◌≢◌, List, [], ◌∷◌};
ghost use Rattle.std.specs.List.{AllPairs};
ghost use Rattle.circuit_theory.specs.Cone.{latches_of};
ghost use Rattle.circuit_theory.specs.Net.{IsNet};
ghost use Rattle.circuit_theory.specs.Tree.{AreNumbered};
ghost use Rattle.circuit_theory.specs.Agree.{IsPair};
ghost use Rattle.circuit_theory.specs.Blocks.{IsCoarsest};
ghost use Rattle.circuit_laws.specs.reset_laws.Reset.{HasStarts, AgreeFromReset};
ghost use Rattle.circuit_laws.specs.reset_laws.induct_laws.Partitions.{IsInitial, IsCoarser, AreEqualOver};
ghost use Rattle.call_rows.specs.circuit_samples.Partitioned.{three_latches, one_latch, all_latches, a_number, first_block, last_block, TellApart, HasEqualLatches, HasQueries};

/// Four latches that start with 0, of which three take over an input and one its complement: one block by initial values, split into the
/// two blocks of the coarsest inductive partition.
pub fn two_blocks()
    ensures left_net { IsNet three_latches 5 }
    ensures right_net { IsNet one_latch 2 }
    ensures latches { AllPairs (λ u v. u ≢ v) (latches_of three_latches) }
    ensures left_starts { HasStarts three_latches }
    ensures right_starts { HasStarts one_latch }
    ensures numbered { AreNumbered three_latches one_latch (0 ∷ []) (0 ∷ []) }
    ensures initial { IsInitial all_latches first_block }
    ensures coarser { IsCoarser all_latches a_number first_block }
    ensures split { TellApart }
    ensures coarsest { IsCoarsest all_latches a_number last_block }
{}

/// Its outputs are equal over the blocks, so they agree in all runs from the initial values.
pub fn equal_over_blocks()
    ensures equal { (p q : ℕ) → IsPair [] three_latches one_latch p q → AreEqualOver three_latches one_latch a_number last_block p q }
    ensures agree { AgreeFromReset three_latches one_latch }
    ensures runs { HasEqualLatches }
    ensures queries { HasQueries }
{}
