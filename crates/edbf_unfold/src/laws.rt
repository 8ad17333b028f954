//! What follows for the literals of event trees. None of these functions does anything: each contract is a law.

ghost use Rattle.edbf_unfold.specs.Laws.{EqualEventTreesOneLiteral, EqualEnablesOneLiteral, LiteralIsTree, EnableLiteralIsEnable, CareLiteralIsCare, KnownLater};

/// Equal trees have one literal in one event graph, whichever circuits they are of.
pub fn equal_event_trees_one_literal()
    ensures { EqualEventTreesOneLiteral }
{}

/// Enables whose two functions have equal trees have one literal.
pub fn equal_enables_one_literal()
    ensures { EqualEnablesOneLiteral }
{}

/// In each frame the literal of a signal has the value of its tree.
pub fn literal_is_tree()
    ensures { LiteralIsTree }
{}

/// In each frame the literal of a latch's enable has the enable's value at its node.
pub fn enable_literal_is_enable()
    ensures { EnableLiteralIsEnable }
{}

/// In each frame the literal of a care is 1 exactly where the frame has care: for a signal, and for the enable of an enabled latch.
pub fn care_literal_is_care()
    ensures { CareLiteralIsCare }
{}

/// A literal goes on to be right while the event graph grows.
pub fn known_later()
    ensures { KnownLater }
{}
