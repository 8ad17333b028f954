//! The laws. None of these functions does anything: each contract is a law that is proved for all circuits that it speaks of.

ghost use Rattle.assume_laws.specs.Laws.{RowMeetsByTree, RowsMeetInRuns, EqualFunctionsAgreeUnder, ExposedFunctionsAgreeUnder, EqualResetsAgreeUnder, EventFunctionsAgreeUnder, ExposedEventFunctionsAgreeUnder, WitnessMakesDifferUnder, ResetWitnessMakesDifferUnder, EventDifferenceIsWitnessUnder, NumbersRead, MeetingRowMeets, DifferencesAreShownUnder};

/// The assumption's tree at a place is 1 exactly where the row there meets the assumption.
pub fn row_meets_by_tree()
    ensures { RowMeetsByTree }
{}

/// A run over rows that meet the assumption meets it.
pub fn rows_meet_in_runs()
    ensures { RowsMeetInRuns }
{}

/// Where the plain functions of each pair of outputs are equal under the assumption, the two circuits agree in the runs that meet it.
pub fn equal_functions_agree_under()
    ensures { EqualFunctionsAgreeUnder }
{}

/// The same with latches exposed by a minimal cut; the circuits agree onward, too.
pub fn exposed_functions_agree_under()
    ensures { ExposedFunctionsAgreeUnder }
{}

/// The same in the reset form.
pub fn equal_resets_agree_under()
    ensures { EqualResetsAgreeUnder }
{}

/// The same in the event form.
pub fn event_functions_agree_under()
    ensures { EventFunctionsAgreeUnder }
{}

/// The same in the event form with exposed latches.
pub fn exposed_event_functions_agree_under()
    ensures { ExposedEventFunctionsAgreeUnder }
{}

/// The sequence that is printed for a pair in the plain form meets the assumption and makes the pair differ in all runs.
pub fn witness_makes_differ_under()
    ensures { WitnessMakesDifferUnder }
{}

/// The same in the reset form.
pub fn reset_witness_makes_differ_under()
    ensures { ResetWitnessMakesDifferUnder }
{}

/// The same in the event form, for a pair that reaches latches of class 0 alone.
pub fn event_difference_is_witness_under()
    ensures { EventDifferenceIsWitnessUnder }
{}

/// Where the inputs of the assumption and of the circuit are numbered by their names, the assumption reads inputs of the circuit.
pub fn numbers_read()
    ensures { NumbersRead }
{}

/// The event functions of a pair differ in some frame that meets the query's care exactly where an assignment of its variables shows one.
pub fn differences_are_shown_under()
    ensures { DifferencesAreShownUnder }
{}

/// A difference of the assumption's query gives a row that meets it; where there is none, no row does.
pub fn meeting_row_meets()
    ensures { MeetingRowMeets }
{}
