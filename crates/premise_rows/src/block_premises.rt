//! That the premises of what is promised of comparisons by blocks of latches are met. The functions do nothing: each contract is an example.
//!
//! That the premises of what is promised of comparisons from the latches' initial values, and of unfolders from them, are met. The
//! functions do nothing: each contract is an example.

ghost use Rattle.premise_rows.specs.block_premises.ByBlocks.{TextsCanBeJudged};
ghost use Rattle.premise_rows.specs.block_premises.EqualByBlocks.{AreEqualByBlocks};

/// Two `and`s by other rows, a circuit with a cycle of latches and itself, and a retiming that moves initial values along can be judged by
/// blocks of latches.
pub fn texts_can_be_judged()
    ensures { TextsCanBeJudged }
{}

/// A latch that turns with its input, and two that turn each other with it, are one block of the coarsest inductive partition, over which
/// the outputs are equal.
pub fn are_equal_by_blocks()
    ensures { AreEqualByBlocks }
{}

ghost use Rattle.premise_rows.specs.block_premises.ResetPremises.{ResetsAreComparable};

/// A retiming that moves initial values along can be compared from these, and so can circuits with latches that may start with either.
pub fn resets_are_comparable()
    ensures { ResetsAreComparable }
{}

ghost use Rattle.premise_rows.specs.block_premises.ResetUnfolding.{UnfoldersFit};

/// An unfolder that has unfolded nothing, and one that has unfolded a latch in three cycles, fit a net of two latches from its initial
/// values; the literals of that latch have the values of a run.
pub fn unfolders_fit()
    ensures { UnfoldersFit }
{}
