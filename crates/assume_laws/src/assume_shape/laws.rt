//! What the shape means. The function does nothing: its contract is the law.

ghost use Rattle.assume_laws.specs.assume_shape.Laws.{ShapesAreAssumptions};

/// A circuit of this shape, with numbers by the names of its inputs, is an assumption, and reads inputs of each circuit that has the
/// columns as inputs and is numbered by them.
pub fn shapes_are_assumptions()
    ensures { ShapesAreAssumptions }
{}
