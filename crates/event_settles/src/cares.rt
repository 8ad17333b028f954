//! What is found of the cares of pairs.

use obligations::outcome::{PairName, Proof};
use sec_base::{Seq, Side, Word};

/// The first latch of a class whose loads can't happen.
#[derive(Drop)]
pub struct IdleLatch {
    /// The circuit that has it.
    pub side: Side,
    pub name: Word,
}

/// Whether some frame has care for both sides of a pair.
#[derive(Drop)]
pub enum Care {
    /// Some frame has.
    Met,
    /// None has. With it stands the first latch of a class whose loads can't happen, where one is known.
    Never(Option<IdleLatch>),
    /// The query wasn't decided within the number of conflicts; its clauses, and the log of the search.
    Limit(Proof),
}

/// What is found of the care of one pair.
#[derive(Drop)]
pub struct PairCare {
    pub name: PairName,
    pub care: Care,
}

/// What is found of the cares of pairs, in their order.
pub type PairCares = Seq<PairCare>;
