//! What an order of variables means for their places. The function does nothing: its contract is the law.

ghost use Rattle.cbf_unfold.specs.shift_variables.query_places.Laws.{VariablesAreGrouped};

/// Variables in the order by shifts, or by cycles, stand side by side where they have one place.
pub fn variables_are_grouped()
    ensures { VariablesAreGrouped }
{}
