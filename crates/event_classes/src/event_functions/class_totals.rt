//! Load enables as event functions, and what the enables of the latches that have classes visit and reach together, counted (after the
//! event-driven Boolean functions of Ranjan, Singhal, Somenzi and Brayton, DATE 1999).

mod enable_refusal;
mod enables;
pub mod laws;

pub use enables::{EnableFunction, unfold_enable};
