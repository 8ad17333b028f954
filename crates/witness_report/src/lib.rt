//! Stimuli as texts, and what a comparison shows of two circuits that differ.
#![tactic(auto)]

mod error;
pub mod frame_report;
mod laws;
mod pieces;
mod reader;
mod rows;
mod stimulus;
mod witness;
mod writer;

pub use circuit_theory::Mode;
pub use error::StimError;
pub use laws::reads_back;
pub use reader::read_stimulus;
pub use sec_base::{
    Bits, MAX_CONFLICTS, NoMemory, PairAnswer, Seq, Settings, Side, Text, Word, Words, digit_of,
    put, put_digits, put_names, put_number,
};
pub use stimulus::Stimulus;
pub use witness::{PairName, Witness};
pub use writer::write_stimulus;
