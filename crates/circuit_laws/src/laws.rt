//! The laws of the definitions. None of these functions does anything: each contract is a law that is proved for every flat net,
//! by the same definitions that the contracts of the working calls cite.

ghost use Rattle.circuit_laws.specs.Laws.{ValuesAreOne, RunsExist, MarksStay, MarksAreTheSame, SettledFromDepth, TreesAreOne, GatesHaveTrees, TreeIsRun, EqualFunctionsAgree, ExposedFunctionsAgree, WitnessMakesDiffer, WeightIsOne, PairsAreListed, NumbersAreShared, EnabledLoadsOrKeeps};

/// In a flat net the values of inputs and latches determine one value for each signal, and a latch can be put to either bit.
pub fn values_are_one()
    ensures { ValuesAreOne }
{}

/// A flat net has one run of each length for each power-up and each sequence of inputs.
pub fn runs_exist()
    ensures { RunsExist }
{}

/// A signal that is settled in a cycle of a run is settled in each later cycle, in either mode.
pub fn marks_stay()
    ensures { MarksStay }
{}

/// Two runs of one circuit with equal inputs settle the same signals in the same cycles, with the same values, whatever the two
/// power-up states are.
pub fn marks_are_the_same()
    ensures { MarksAreTheSame }
{}

/// In the plain mode a signal is settled exactly from the cycle of its sequential depth on.
pub fn settled_from_depth()
    ensures { SettledFromDepth }
{}

/// A signal has a plain unfolding exactly where it has a sequential depth, and then only one.
pub fn trees_are_one()
    ensures { TreesAreOne }
{}

/// In a circuit without latches each signal has a plain unfolding, of depth 0.
pub fn gates_have_trees()
    ensures { GatesHaveTrees }
{}

/// In every run the plain unfolding of a settled signal has the signal's value.
pub fn tree_is_run()
    ensures { TreeIsRun }
{}

/// Where the plain functions of each pair of outputs are equal, the two circuits agree on each output wherever it is settled in both.
pub fn equal_functions_agree()
    ensures { EqualFunctionsAgree }
{}

/// Where latches are exposed by a minimal cut and all pairs of the cut circuits have equal plain functions, the two circuits agree
/// on each output wherever it is settled in both, and agree onward.
pub fn exposed_functions_agree()
    ensures { ExposedFunctionsAgree }
{}

/// The sequence that is printed for a pair makes the pair differ in all runs, whatever the two power-up states are.
pub fn witness_makes_differ()
    ensures { WitnessMakesDiffer }
{}

/// The weight of an unfolding is one number, and where it is over a cap, the number is above the cap.
pub fn weight_is_one()
    ensures { WeightIsOne }
{}

/// The list of pairs of a comparison holds exactly the pairs that are compared: outputs of one name, and what the two latches of an
/// exposed name take over.
pub fn pairs_are_listed()
    ensures { PairsAreListed }
{}

/// The numbers that the interface gives to inputs are one on both sides only for inputs of one name.
pub fn numbers_are_shared()
    ensures { NumbersAreShared }
{}

/// An enabled latch takes over its next value with itself at 0 where its enable is 1, and else keeps its value; it loads exactly where the
/// enable is 1.
pub fn enabled_loads_or_keeps()
    ensures { EnabledLoadsOrKeeps }
{}
