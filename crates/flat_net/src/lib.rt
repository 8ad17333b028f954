//! Flat circuits: one driver for each signal, gates in an order of evaluation, latches, and no hierarchy.
#![tactic(auto)]

mod maker;
mod net;
mod parts;
mod signals;
mod weight;

pub use base_tables::{NameTable, PlaceTable, UniqueTable};
pub use maker::NetMaker;
pub use net::Net;
pub use parts::{Driver, Gate, LatchAt, Port};
pub use sec_base::{
    BitRows, Bits, Cover, Duplicate, Ids, MAX_CONFLICTS, NoMemory, Orders, Seq, Side, Tag, Word,
    Words, unset_bits,
};
pub use signals::{Signal, Signals};
pub use weight::{gate_of, latch_of, weigh};
