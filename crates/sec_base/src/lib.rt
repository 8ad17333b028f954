//! Covers, limits, small types and pieces of reports: what nearly all crates of `sec` stand on. The lists stand in a crate of their own, which it
//! hands on; tables stand beside it.
#![tactic(auto)]

mod basics;
mod covers;
mod file_path;
mod limits;
mod settings;
mod texts;

pub use base_lists::{
    BitRows, Bits, Cubes, Duplicate, FileText, Ids, NoMemory, Seq, Text, Word, Words, unset_bits,
};
pub use basics::{Edge, Init, Orders, PairAnswer, Tag};
pub use circuit_theory::Side;
pub use covers::{Cover, place_matches};
pub use file_path::FilePath;
pub use limits::{
    DEFAULT_CONFLICTS, MAX_CONFLICTS, MAX_ENABLED_LATCHES, MAX_EVENT_CLASSES, MAX_EVENT_NODES,
    MAX_FILE_BYTES, MAX_LEVELS, MAX_NAME_BYTES, MAX_PLACES, MAX_STATEMENTS, MAX_TABLE_VARIABLES,
    MAX_WEIGHT, limits_are,
};
pub use settings::Settings;
pub use texts::{digit_of, put, put_digits, put_names, put_number};
