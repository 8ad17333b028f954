//! What drives each signal of a flat design and where its ports lead, or the first fault of its drivers and clocks.
//!
//! The net of a signal is where following ports back from it ends. On a ring of ports it never ends: such a signal has
//! no net, and a clock without a net is no clock.

mod clocks;
mod drivers;
mod kept;
mod kinds;
mod source;
mod sources;
mod wires;

pub use source::{Source, Wired};
pub use wires::wire;
