//! Which latches an event unfolding reaches, each at its event nodes; the walk knows no weights (after the event-driven Boolean
//! functions of Ranjan, Singhal, Somenzi and Brayton, DATE 1999).

mod reached;

pub use reached::{enabled_at, reached_latches, reached_others};

/// The most latches at event nodes that are listed: as many as a table numbers. Some hundred million of them fill a large machine's memory,
/// so what ends a longer list is want of memory and not this number.
pub const MOST_REACHED: u32 = 4_000_000_000;
