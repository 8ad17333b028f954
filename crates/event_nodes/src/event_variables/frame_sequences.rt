//! The sequence of a frame: the bit of an input at the event node that is so many steps of class 0 stands so many cycles before the last one.

mod nodes;
mod rows;
mod table;

pub use nodes::always_steps;
pub use rows::frame_rows;
