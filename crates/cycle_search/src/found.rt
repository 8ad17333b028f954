//! What is found of two circuits, or why nothing is.

use obligations::outcome::{PairName, PairResults, ResetWitness};
use reset_form::ResetError;
use sec_base::{NoMemory, Side, Word};

/// What is found of the pairs in the cycles from 0 to a last one. In each cycle before it every pair is equal.
#[derive(Drop)]
pub struct Searched {
    /// One result for each pair, in order: its answer in the last cycle, which is told as its size.
    pub pairs: PairResults,
    /// The last cycle in which the pairs were compared.
    pub last: u32,
    pub verdict: SearchVerdict,
}

/// The answer of a search.
#[derive(Drop)]
pub enum SearchVerdict {
    /// Each pair agrees in each cycle up to the last one, which is at least its depth: so it agrees in every cycle.
    Equal,
    /// Each pair agrees in each cycle up to the last one. The search ended there because it was to, or because this circuit would weigh
    /// too much in the next cycle.
    NoDifference(Option<Side>),
    /// The first pair that differs in the last cycle, with the sequence and the power-ups that show it.
    Different(ResetWitness),
    /// No pair differs in the last cycle, and the query of this one, the first, wasn't decided there within the number of conflicts.
    Limit(PairName),
}

/// Why two circuits aren't compared.
#[derive(Drop)]
pub enum SearchError {
    /// The first name that one circuit has and the other lacks.
    Interface(Word),
    /// The unfoldings of this circuit's outputs in cycle 0 weigh more than 2,000,000 together; A comes first.
    TooLarge(Side),
    /// Memory was wanted and couldn't be had.
    NoMemory,
}

impl From<NoMemory> for SearchError {
    ghost use Rattle.std.specs.Prelude.{◌≡◌};
    ghost use Rattle.cycle_search.specs.declared.found.SearchError.TheVariants.{NoMemory};

    ghost from_gives = { λ _ e. e ≡ NoMemory };

    fn from(_error: NoMemory) -> SearchError {
        SearchError::NoMemory
    }
}

impl From<ResetError> for SearchError {
    ghost use Rattle.std.specs.Prelude.{◌≡◌};
    ghost use Rattle.cycle_search.specs.Refusals.{refusal_of};

    ghost from_gives = { λ s e. e ≡ refusal_of s };

    fn from(error: ResetError) -> SearchError {
        match error {
            ResetError::TooLarge(side) => SearchError::TooLarge(side),
            ResetError::NoMemory => SearchError::NoMemory,
        }
    }
}
