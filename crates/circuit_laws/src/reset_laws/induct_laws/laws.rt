//! The laws of inductive partitions. None of these functions does anything: each contract is a law.

ghost use Rattle.circuit_laws.specs.reset_laws.induct_laws.Laws.{InitialIsCoarser, SplitStaysCoarser, CoarsestIsOne, CoarsestExists, BlocksAreVariables, BlocksHaveTrees, QueriesDecide, BlocksStayEqual, EqualOverBlocksAgree};

/// The partition by initial values is one that each inductive partition refines.
pub fn initial_is_coarser()
    ensures { InitialIsCoarser }
{}

/// Where each inductive partition refines a partition, it still does after a split by values that are constant on its blocks: no
/// counterexample can split a block of an inductive partition.
pub fn split_stays_coarser()
    ensures { SplitStaysCoarser }
{}

/// Two coarsest inductive partitions have the same blocks.
pub fn coarsest_is_one()
    ensures { CoarsestIsOne }
{}

/// Two flat nets have a coarsest inductive partition.
pub fn coarsest_exists()
    ensures { CoarsestExists }
{}

/// Each assignment of a bit to each input's number and each block is one of values that are constant on the blocks, and the other
/// way round.
pub fn blocks_are_variables()
    ensures { BlocksAreVariables }
{}

/// Each signal of two flat nets has an unfolding in which each latch is read as its block's variable.
pub fn blocks_have_trees()
    ensures { BlocksHaveTrees }
{}

/// A query in which each latch is read as its block's variable says same exactly where its two places have one value for all
/// values that are constant on the blocks.
pub fn queries_decide()
    ensures { QueriesDecide }
{}

/// All latches of a block of an inductive partition are equal in every cycle of two reset runs with equal inputs.
pub fn blocks_stay_equal()
    ensures { BlocksStayEqual }
{}

/// Where the two functions of each pair of outputs are equal for all values that are constant on the blocks of an inductive
/// partition, each pair agrees in every cycle of two reset runs with equal inputs.
pub fn equal_over_blocks_agree()
    ensures { EqualOverBlocksAgree }
{}
