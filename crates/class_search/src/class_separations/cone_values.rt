//! The value of one literal under one assignment, over the literal's cone alone.

mod value;

pub use value::value_in_cone;
