//! That the premises of what is promised of classes that are told apart, and of what enables visit, are met. The functions do nothing: each
//! contract is an example.

ghost use Rattle.premise_rows.specs.event_apart_premises.Enables.{EnablesAreCounted};
ghost use Rattle.premise_rows.specs.event_apart_premises.OneClass.{OneClassMeetsPremises};
ghost use Rattle.premise_rows.specs.event_apart_premises.TwoClasses.{PairOfTwoClassesCanBeCompared, TwoClassesAreToldApart};

/// Of two circuits with a latch each that loads under an enable, what tells their class from `always`, and that it stays so.
pub fn one_class_meets_premises()
    ensures { OneClassMeetsPremises }
{}

/// What the enables of these two latches visit, as it was counted before their pair is compared.
pub fn enables_are_counted()
    ensures { EnablesAreCounted }
{}

/// Two circuits with two latches each, which load one input under different enables: what tells their classes from `always` and from each other,
/// and the two classes of the pair of their outputs.
pub fn two_classes_are_told_apart()
    ensures { TwoClassesAreToldApart }
{}

/// One shows the `and` of its latches, the other their `or`: the pair as it is compared, and what is found of it, with what tells its classes apart.
pub fn pair_of_two_classes_can_be_compared()
    ensures { PairOfTwoClassesCanBeCompared }
{}
