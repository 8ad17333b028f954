//! Whether two literals of an and-inverter graph agree, by cases of the variables that most nodes read (Shannon's expansion): where
//! such a variable has a bit, a multiplexer that it steers is one of its inputs.

mod case;
mod cases;
mod lits;
mod marks;

pub use cases::agree_by_cases;
