//! What it means that an outcome fits two circuits whose runs begin with the latches' initial values, under an assumption on the inputs, and
//! what it then says of them.

mod laws;

pub use laws::{different_resets_show_under, equal_resets_say_under};
