//! The or of two literals of an and-inverter graph by two shorter ones, so that ors of some common shapes are one literal.

mod restrict;

pub use restrict::short_and;
