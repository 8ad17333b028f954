//! A difference of two circuits.

use crate::stimulus::Stimulus;
use sec_base::Word;

/// A pair of signals that is compared, by its name.
#[derive(Drop)]
pub enum PairName {
    /// The outputs of this name.
    Output(Word),
    /// What the two latches of this name take over, where they are cut open.
    Next(Word),
}

/// An input sequence that makes a pair differ.
#[derive(Drop)]
pub struct Witness {
    pub pair: PairName,
    /// The cycle, from 0, in which the pair differs.
    pub cycle: u32,
    /// The value in the first circuit.
    pub left: bool,
    /// The value in the second circuit.
    pub right: bool,
    pub stimulus: Stimulus,
}
