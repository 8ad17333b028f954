//! From two circuits to the latches that are exposed: latches that both have under one name, without which no cycle is
//! left, and none of which could stay.

mod common_latches;
pub mod expose_pick;
mod exposed;

pub use expose_pick::LatchGraph;
pub(crate) use exposed::names_at;
pub use exposed::{ExposeError, Exposure, expose};
