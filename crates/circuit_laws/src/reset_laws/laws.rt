//! The laws. None of these functions does anything: each contract is a law that is proved for all circuits that it speaks of.

ghost use Rattle.circuit_laws.specs.reset_laws.Laws.{ResetTreesAreOne, ResetTreeIsRun, EqualResetsAgree, ResetWitnessMakesDiffer, ResetWeightIsOne, ResetRunsExist};

/// In a flat net each signal has one unfolding in each cycle.
pub fn reset_trees_are_one()
    ensures { ResetTreesAreOne }
{}

/// In every reset run the unfolding of a signal in a cycle has the run's value.
pub fn reset_tree_is_run()
    ensures { ResetTreeIsRun }
{}

/// Where the functions of each pair of outputs are equal in each cycle up to the pair's depth, any two reset runs with equal inputs
/// agree on each output in every cycle.
pub fn equal_resets_agree()
    ensures { EqualResetsAgree }
{}

/// The sequence and the power-ups that are printed for a pair make it differ in all runs that begin so.
pub fn reset_witness_makes_differ()
    ensures { ResetWitnessMakesDiffer }
{}

/// The weight of unfoldings in cycles is one number, and where it is over a cap, the number is above the cap.
pub fn reset_weight_is_one()
    ensures { ResetWeightIsOne }
{}

/// There is one reset run of each length for each sequence of inputs and each power-up of the free latches.
pub fn reset_runs_exist()
    ensures { ResetRunsExist }
{}
