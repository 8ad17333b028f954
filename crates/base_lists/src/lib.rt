//! Lists that grow at their end, want of memory, and copies: what each list and each name of `sec` is made of.
#![tactic(auto)]

mod list;

pub use list::{
    BitRows, Bits, Cubes, Duplicate, FileText, Ids, NoMemory, Seq, Text, Word, Words, unset_bits,
};
