//! The laws. None of these functions does anything: each contract is a law, by the definitions that the contracts of the working calls cite.

ghost use Rattle.event_form.specs.event_agreement.event_pairs.Laws.{SignalsAreFunctions, EventFunctionsGrow, EqualFunctionsOneLiteral, ValueIsTree, PairNodesAreNodes};

/// The function that a circuit's unfolding gives for a signal is the signal's event function where both circuits stand side by side.
pub fn signals_are_functions()
    ensures { SignalsAreFunctions }
{}

/// An event function goes on to be one while the event graph grows.
pub fn event_functions_grow()
    ensures { EventFunctionsGrow }
{}

/// Functions of one tree have one literal, whichever circuits they are of.
pub fn equal_functions_one_literal()
    ensures { EqualFunctionsOneLiteral }
{}

/// In each frame the value's literal has the value of the function's tree.
pub fn value_is_tree()
    ensures { ValueIsTree }
{}

/// The event nodes that one of two functions reaches are those of the pair.
pub fn pair_nodes_are_nodes()
    ensures { PairNodesAreNodes }
{}
