//! Totals over the latches of two circuits that have classes, and what the variables of an enable are. None of these functions does anything: each contract is a law.

ghost use Rattle.event_classes.specs.event_functions.class_totals.Laws.{TotalsBegin, TotalsStay, TotalsGoOn, TotalsAreWithin, ManyNodesAreOver, HeavyIsOver, FewNodesAreWithin};
ghost use Rattle.event_classes.specs.event_functions.class_totals.EnableFunctions.{EnablesAreCovered};

/// Where no latch is taken, nothing is counted.
pub fn totals_begin()
    ensures { TotalsBegin }
{}

/// What has been counted stays so where the next latch is given its class.
pub fn totals_stay()
    ensures { TotalsStay }
{}

/// It goes on with the enable of the next latch.
pub fn totals_go_on()
    ensures { TotalsGoOn }
{}

/// It is within the numbers of the definition where the counts are.
pub fn totals_are_within()
    ensures { TotalsAreWithin }
{}

/// Where more than 10,000 event nodes were made, with the enable of the next latch too many are reached.
pub fn many_nodes_are_over()
    ensures { ManyNodesAreOver }
{}

/// Where the next latch is refused for its weight, the unfoldings of its circuit weigh too much with it.
pub fn heavy_is_over()
    ensures { HeavyIsOver }
{}

/// Where the next latch is refused for its weight alone, no more than 10,000 event nodes are reached with it.
pub fn few_nodes_are_within()
    ensures { FewNodesAreWithin }
{}

/// The variables of an enable are all that its value and its care read.
pub fn enables_are_covered()
    ensures { EnablesAreCovered }
{}
