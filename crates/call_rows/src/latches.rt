//! What is found out of the latches of netlists.

mod blocks;
mod circuits;
mod classes;
mod enables;
mod nets;
mod numbers;

pub(crate) use blocks::show_row as show_blocks;
pub(crate) use classes::show_row as show_classes;
pub(crate) use enables::show_row as show_enables;
