//! The ports of two circuits beside one another: which inputs both have, the numbers of the inputs, and the pairs of signals that
//! are compared; tables of the names of ports. It knows no latch graph.

pub mod name_tables;
mod numbers;
mod pairs;

pub use flat_net::{
    Bits, Ids, NameTable, Net, NoMemory, Orders, Seq, Side, Signal, Word, Words, unset_bits,
};
pub use numbers::{first_mismatch, inputs_beside, orders_of};
pub use pairs::{SignalPair, SignalPairs, output_names, pairs_of};
