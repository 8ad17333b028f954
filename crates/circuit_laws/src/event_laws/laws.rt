//! The laws of the event form. None of these functions does anything: each contract is a law that is proved for all flat nets, by the
//! same definitions that the contracts of the working calls cite.

ghost use Rattle.circuit_laws.specs.event_laws.ClassSteps.{ClassMapGoesOn, TwinsFitOneClass};
ghost use Rattle.circuit_laws.specs.event_laws.Laws.{EventFunctionsAgree, ExposedEventFunctionsAgree, SettledHasEvents, EventsAreCommon, EventWitnessMakesDiffer, SidesAreParts, CutIsNet, TreesAreFrameValues, ClassesAreOne, DifferencesAreShown, EventDifferenceIsWitness, ExposedEventsAreCommon, ClassesSoFarAreOne, ReachedAreListed, ClosedListsAreReached, ExposedNamesAreApart, FrameValuesExist, SeparationsAreOne, FoundersAreApart, SidesUnfoldAsParts};

/// Where the event functions of each pair of outputs agree in each frame with care for both, the two circuits agree in the event mode
/// on each output wherever it is settled in both.
pub fn event_functions_agree()
    ensures { EventFunctionsAgree }
{}

/// Where latches are exposed by a minimal cut of the event mode and the event functions of each pair of the cut circuits agree in each
/// frame with care for both, the two circuits agree in the event mode on each output wherever it is settled in both, and agree onward.
pub fn exposed_event_functions_agree()
    ensures { ExposedEventFunctionsAgree }
{}

/// Where a place is settled in a run, the events that it reaches exist, the latches of one class that are reached at a node have their
/// last loads in one cycle, and the frame filled with the inputs of these cycles has care and gives the place's value.
pub fn settled_has_events()
    ensures { SettledHasEvents }
{}

/// In two runs with equal inputs a node that two settled places reach has one cycle, whichever circuits they are of.
pub fn events_are_common()
    ensures { EventsAreCommon }
{}

/// In the event form the sequence that is printed for a pair that reaches latches of class 0 alone makes the pair differ in all runs,
/// whatever the two power-up states are.
pub fn event_witness_makes_differ()
    ensures { EventWitnessMakesDiffer }
{}

/// Two circuits side by side have the enabled latches and the depths that each has by itself.
pub fn sides_are_parts()
    ensures { SidesAreParts }
{}

/// A flat net that is cut at distinct names is a flat net, its enabled latches are those that aren't exposed, and its cycles are those
/// that are left without the exposed latches.
pub fn cut_is_net()
    ensures { CutIsNet }
{}

/// The value of a place's event tree in a frame is the place's value there, and the value of a latch's enable is that of its two next-state
/// functions.
pub fn trees_are_frame_values()
    ensures { TreesAreFrameValues }
{}

/// Two circuits have one class map.
pub fn classes_are_one()
    ensures { ClassesAreOne }
{}

/// The event functions of a pair differ in some frame with care for both exactly where an assignment of the variables of its query shows
/// a frame in which they do.
pub fn differences_are_shown()
    ensures { DifferencesAreShown }
{}

/// Where a pair reaches latches of class 0 alone, an assignment of the variables of its query that makes its event functions differ gives
/// the sequence that makes the pair differ in all runs.
pub fn event_difference_is_witness()
    ensures { EventDifferenceIsWitness }
{}

/// With exposed latches, a node of the cut circuits that two places reach which are settled in the circuits themselves has one cycle in two
/// runs with equal inputs, whatever the exposed latches do.
pub fn exposed_events_are_common()
    ensures { ExposedEventsAreCommon }
{}

/// Two class maps of one pair of circuits give the same classes as far as both go.
pub fn classes_so_far_are_one()
    ensures { ClassesSoFarAreOne }
{}

/// A class map is made latch by latch: it begins where the plain latches are of class 0, and goes on where the next latch is given the first
/// class that fits.
pub fn class_map_goes_on()
    ensures { ClassMapGoesOn }
{}

/// A latch whose enable and care are those of one that was taken before joins its class, and needs no comparison with other members.
pub fn twins_fit_one_class()
    ensures { TwinsFitOneClass }
{}

/// The latches that event unfoldings reach, each at its event nodes, are a finite list.
pub fn reached_are_listed()
    ensures { ReachedAreListed }
{}

/// A work list that is closed under what it has to reach, and holds nothing else, holds exactly what is reached.
pub fn closed_lists_are_reached()
    ensures { ClosedListsAreReached }
{}

/// With latches exposed by a minimal cut, an output of one circuit and one of the other that are settled in the circuits themselves don't
/// both read an exposed name.
pub fn exposed_names_are_apart()
    ensures { ExposedNamesAreApart }
{}

/// Each frame has values at each node.
pub fn frame_values_exist()
    ensures { FrameValuesExist }
{}

/// Two classes have one separation: its two latches are the founder of the higher class, and the first member of the lower one from which
/// it differs.
pub fn separations_are_one()
    ensures { SeparationsAreOne }
{}

/// Each two classes can be separated: the founder of the higher one differs from a member of the lower one, or from `always`.
pub fn founders_are_apart()
    ensures { FoundersAreApart }
{}

/// Side by side each circuit has the unfoldings, enables and cares that it has by itself.
pub fn sides_unfold_as_parts()
    ensures { SidesUnfoldAsParts }
{}
