//! That the premises of what is promised of comparisons in the event mode under an assumption are met. The function does nothing: its contract is an example.

pub mod assume_rows;

ghost use Rattle.premise_rows.specs.event_assume_rows.Loads.{LoadsMeet};

/// Two latches with a load enable can be compared where two inputs are equal, of which the one loads the first and the other their `and`.
pub fn loads_meet()
    ensures { LoadsMeet }
{}
