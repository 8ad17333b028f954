//! The samples. None of these functions does anything: each contract is a computed example, of a pair of circuits or of one that
//! meets what a law asks, and of what the law then says.

ghost use Rattle.std.specs.Prelude.{◌≡◌, true, false, List, [], ◌∷◌};
ghost use Rattle.circuit_theory.specs.declared.Mode.TheVariants.{Event};
ghost use Rattle.circuit_theory.specs.Run.{IsEnabled};
ghost use Rattle.circuit_theory.specs.Depth.{IsDepth};
ghost use Rattle.circuit_theory.specs.Query.{Variable, IsSame};
ghost use Rattle.circuit_theory.specs.Fits.{IsPairDepth, MakesDiffer};
ghost use Rattle.circuit_theory.specs.Agree.{cut, Agree, AgreeOnward};
ghost use Rattle.circuit_theory.specs.Joined.{Left, Right, joined};
ghost use Rattle.circuit_theory.specs.EventFrames.{AreNodeVariables, IsPairTree, HaveDifferentEvents, IsEventDifference, IsSeparation, IsSeparationFromAlways};
ghost use Rattle.circuit_theory.specs.EventFits.{ReachesAlways};
ghost use Rattle.assume_laws.specs.settle_laws.Settles.{HaveNoCare, HaveNoCareUnder};
ghost use Rattle.circuit_theory.specs.EventQueries.{IsEventPairQuery};
ghost use Rattle.circuit_theory.specs.Net.{IsNet};
ghost use Rattle.assume_laws.specs.Assume.{IsAssumption, ReadsInputs, PlaceUnfolds, AgreeUnder, AgreeOnwardUnder};
ghost use Rattle.assume_laws.specs.Sequences.{RowsMeet, IsMeetingDifference, IsMeetingRow, IsPairTreeUnder, IsEventDifferenceUnder, HaveDifferentEventsUnder, assumption_query};
ghost use Rattle.call_rows.specs.circuit_samples.event_samples.Reader.{HasSettledReader};
ghost use Rattle.call_rows.specs.circuit_samples.event_samples.Always.{always_loads, nothing, always_both, no_class, always_side, always_query, always_variables, one_always, never, assumed_query, meeting_row, ok_tree, never_tree};
ghost use Rattle.call_rows.specs.circuit_samples.event_samples.Never.{never_loads, one_class, never_side, never_query};
ghost use Rattle.call_rows.specs.circuit_samples.event_samples.Samples.{before, behind, cleared, exposed, opened_before, opened_behind, opened_cleared, opened_side, numbers, class_of};
ghost use Rattle.call_rows.specs.circuit_samples.event_samples.Places.{CountByPlaces};
ghost use Rattle.call_rows.specs.circuit_samples.event_samples.Assumed.{a_is_one, PairsAreEqualUnder};
ghost use Rattle.call_rows.specs.circuit_samples.event_samples.Premises.{AreEventSides, AreExposedSides, PairsAreEqual};
ghost use Rattle.call_rows.specs.circuit_samples.event_samples.Events.{HasTwoClasses, HasSettledPair, HasExposedSettledPair, FramesHaveValues, HasMapsSoFar, HasFirstFit, HasTwin, HasReachedList, root_variable, opened_order};

/// Two circuits with two load enables: one loads a complement, the other complements what it has loaded. There are two classes besides
/// `always`, the outputs have equal event functions, and the circuits agree.
pub fn two_classes()
    ensures sides { AreEventSides opened_before opened_behind 11 11 numbers numbers class_of }
    ensures classes { HasTwoClasses }
    ensures equal { PairsAreEqual [] opened_before opened_behind opened_before opened_behind numbers numbers class_of }
    ensures agree { Agree Event opened_before opened_behind }
{}

/// The same with a latch that toggles, which is exposed: an enabled latch of class 1 beside an exposed latch.
pub fn exposed_and_enabled()
    ensures sides { AreExposedSides before behind 11 11 exposed numbers numbers class_of }
    ensures enabled { IsEnabled (joined (cut exposed before) (cut exposed behind)) (Left 3) }
    ensures class { class_of (Left 3) ≡ 1 }
    ensures equal { PairsAreEqual exposed before behind (cut exposed before) (cut exposed behind) numbers numbers class_of }
    ensures agree { Agree Event before behind }
    ensures onward { AgreeOnward Event exposed before behind }
{}

/// In the first of the two a list of the places of its two latches with a load enable says the same of the latches as the event mode.
pub fn places_count()
    ensures { CountByPlaces }
{}

/// A run in which outputs of both sides are settled, with the events that they reach.
pub fn settled_pair()
    ensures { HasSettledPair }
{}

/// Two runs of circuits with an exposed latch in which places are settled that don't read it.
pub fn exposed_settled_pair()
    ensures { HasExposedSettledPair }
{}

/// Frames have values where there are two classes.
pub fn frames_have_values()
    ensures { FramesHaveValues }
{}

/// A class map that is partly made, and one that goes on from it.
pub fn maps_so_far()
    ensures { HasMapsSoFar }
{}

/// A class map goes on: the next latch is given the first class that fits.
pub fn first_fit()
    ensures { HasFirstFit }
{}

/// A latch of the second circuit joins the class of its like in the first.
pub fn twin_fits()
    ensures { HasTwin }
{}

/// A closed list of the latches that an output reaches.
pub fn reached_list()
    ensures { HasReachedList }
{}

/// Two circuits with two load enables of which one loads the complement of an input and the other loads 0: they are equal, and agree, under
/// the assumption that this input is 1.
pub fn assumed_pair()
    ensures assumption { IsAssumption a_is_one 2 }
    ensures sides { AreEventSides opened_before opened_cleared 11 11 numbers numbers class_of }
    ensures reads { ReadsInputs a_is_one opened_before numbers }
    ensures equal { PairsAreEqualUnder a_is_one [] opened_before opened_cleared opened_before opened_cleared numbers numbers class_of }
    ensures agree { AgreeUnder Event a_is_one opened_before opened_cleared }
{}

/// The same with a latch that toggles, which is exposed.
pub fn assumed_and_exposed()
    ensures sides { AreExposedSides before cleared 11 11 exposed numbers numbers class_of }
    ensures reads { ReadsInputs a_is_one (cut exposed before) numbers }
    ensures equal { PairsAreEqualUnder a_is_one exposed before cleared (cut exposed before) (cut exposed cleared) numbers numbers class_of }
    ensures agree { AgreeUnder Event a_is_one before cleared }
    ensures onward { AgreeOnwardUnder Event exposed a_is_one before cleared }
{}

/// A latch that loads in every cycle though it reads itself, of class 0, against the constant 0: their functions differ, and the sequence
/// of the difference makes the outputs differ in all runs.
pub fn always_pair()
    ensures sides { AreEventSides always_loads nothing 4 2 (0 ∷ []) (0 ∷ []) no_class }
    ensures enabled { IsEnabled always_both (Left 1) }
    ensures reaches { ReachesAlways always_side (Left 3) × ReachesAlways always_side (Right 1) }
    ensures depths { IsDepth always_both (IsEnabled always_both) (Left 3) 1 × IsDepth always_both (IsEnabled always_both) (Right 1) 0 }
    ensures variables { AreNodeVariables (IsPairTree always_side (Left 3) (Right 1)) always_variables }
    ensures shown { HaveDifferentEvents always_side (Left 3) (Right 1) }
    ensures difference { IsEventDifference always_side (Left 3) (Right 1) always_query always_variables (true ∷ []) }
    ensures differ { MakesDiffer always_loads nothing (0 ∷ []) (0 ∷ []) 3 1 ((true ∷ []) ∷ (false ∷ []) ∷ []) 1 true false }
{}

/// The same under the assumption that the input is 1, which the sequence then meets in each cycle.
pub fn assumed_difference()
    ensures assumption { IsAssumption one_always 2 }
    ensures variables { AreNodeVariables (IsPairTreeUnder one_always always_side (Left 3) (Right 1)) always_variables }
    ensures shown { HaveDifferentEventsUnder one_always always_side (Left 3) (Right 1) }
    ensures difference { IsEventDifferenceUnder one_always always_side (Left 3) (Right 1) assumed_query always_variables always_variables (true ∷ []) }
    ensures meeting { IsMeetingRow one_always 1 meeting_row }
    ensures differ { MakesDiffer always_loads nothing (0 ∷ []) (0 ∷ []) 3 1 ((true ∷ []) ∷ (true ∷ []) ∷ []) 1 true false }
    ensures rows { RowsMeet one_always ((true ∷ []) ∷ (true ∷ []) ∷ []) 1 }
{}

/// The least assignment of an assumption's query that meets it, and an assumption that no row meets.
pub fn met_and_not_met()
    ensures met { IsMeetingDifference one_always 0 ok_tree (record { input = 0; at = 0 } ∷ []) (true ∷ []) }
    ensures assumption { IsAssumption never 2 }
    ensures unfolds { PlaceUnfolds never.circuit never.order 0 never.output never_tree }
    ensures never { IsSame (assumption_query never_tree) }
{}

/// A latch that is exposed since it toggles in the other circuit, and that is settled in its own, where it reads itself, an exposed name.
pub fn settled_reader()
    ensures { HasSettledReader }
{}

/// The separation of the two classes: where the one enable is 1 and the other 0, the first founder loads and the second doesn't; and that of
/// the first class from `always`.
pub fn separated()
    ensures classes { IsSeparation opened_side opened_order 1 2 (Left 3) (Left 5) (root_variable 0 ∷ root_variable 1 ∷ root_variable 2 ∷ []) (true ∷ false ∷ false ∷ []) true false }
    ensures always { IsSeparationFromAlways opened_side opened_order 1 (Left 3) (root_variable 0 ∷ root_variable 2 ∷ []) (false ∷ false ∷ []) }
{}

/// A latch that takes over itself, so that it never loads, against the constant 0: no frame has care for it, so none has for the pair, also where no
/// latch is exposed by name, and under the assumption that the input is 1. The pair's query has the care 0.
pub fn never_pair()
    ensures sides { AreEventSides never_loads nothing 2 2 (0 ∷ []) (0 ∷ []) one_class }
    ensures exposed { AreExposedSides never_loads nothing 2 2 [] (0 ∷ []) (0 ∷ []) one_class }
    ensures pair { HaveNoCare never_side (Left 1) (Right 1) }
    ensures side { HaveNoCare never_side (Left 1) (Left 1) }
    ensures assumption { IsAssumption one_always 2 × ReadsInputs one_always never_loads (0 ∷ []) }
    ensures under { HaveNoCareUnder one_always never_side (Left 1) (Right 1) }
    ensures query { IsEventPairQuery never_side (Left 1) (Right 1) never_query }
{}

/// Two constants, settled from cycle 0 on.
pub fn constant_pair()
    ensures net { IsNet nothing 2 }
    ensures depth { IsPairDepth nothing nothing 1 1 0 }
{}
