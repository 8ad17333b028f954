//! The cone of a latch: what is reached backwards through gates from what it takes over.

mod bits;
mod kinds;
mod walk;

pub use bits::none_enabled;
pub use flat_net::{
    Bits, Driver, Duplicate, Ids, LatchAt, Net, NoMemory, Seq, Side, Signal, Signals, Words,
};
pub use kinds::{LatchKind, all_plain, enabled_among};
pub use walk::{other_latches, reached};
