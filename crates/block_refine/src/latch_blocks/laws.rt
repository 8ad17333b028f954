//! Laws of blocks. None of these functions does anything: each contract is a law.

ghost use Rattle.block_refine.specs.latch_blocks.Laws.{SplitRefines, SplitHasFewerPairs};
ghost use Rattle.block_refine.specs.latch_blocks.PartitionLaws.{PartitionBegins, PartitionSplits, PartitionEnds};
ghost use Rattle.block_refine.specs.latch_blocks.QueryLaws.{SameLiteralsAgree, AssignmentsAreBlockValues};
ghost use Rattle.block_refine.specs.latch_blocks.ReadingLaws.{ReadingsAreValues, ValuesHaveReadings};

/// What is one block after a split was one before.
pub fn split_refines()
    ensures { SplitRefines }
{}

/// A split by bits that tell two latches of one block apart leaves fewer pairs of latches in one block. So splitting ends.
pub fn split_has_fewer_pairs()
    ensures { SplitHasFewerPairs }
{}

/// The partition by initial values is one on the way to the coarsest inductive one.
pub fn partition_begins()
    ensures { PartitionBegins }
{}

/// A split by what the latches take over, under values that are constant on the blocks, leads on.
pub fn partition_splits()
    ensures { PartitionSplits }
{}

/// A partition on the way is the coarsest inductive one where no such values split it.
pub fn partition_ends()
    ensures { PartitionEnds }
{}

/// Each assignment of the variables gives values of both nets that are constant on the blocks.
pub fn readings_are_values()
    ensures { ReadingsAreValues }
{}

/// Values of both nets that are constant on the blocks are those of an assignment of the variables.
pub fn values_have_readings()
    ensures { ValuesHaveReadings }
{}

/// Where two literals have one value under each assignment, their signals have one value for all values that are constant on the blocks.
pub fn same_literals_agree()
    ensures { SameLiteralsAgree }
{}

/// Each assignment is that of values that are constant on the blocks, in which each signal has its literal's value.
pub fn assignments_are_block_values()
    ensures { AssignmentsAreBlockValues }
{}
