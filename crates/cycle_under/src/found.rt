//! What is found of two circuits under an assumption, or why nothing is.

use assume_laws::assume_shape::ShapeFault;
use assume_queries::assume_sequences::assume_taken::TakeError;
use cycle_search::{SearchError, Searched};
use obligations::outcome::Proof;
use reset_form::ResetError;
use reset_form::reset_functions::SameBy;
use sec_base::{NoMemory, Side, Word};

/// What a search under an assumption finds, with the name of the assumption's output.
#[derive(Drop)]
pub enum SearchUnder {
    /// What is found of the pairs in the cycles from 0 to a last one, where the inputs meet the assumption in each. Where it ended before the
    /// wanted cycle with no difference, and no circuit is named, the assumption would weigh too much in the next one.
    Searched(Word, Searched),
    /// Whether some row of inputs meets the assumption wasn't decided within the number of conflicts, and nothing was compared.
    Undecided(Word, Proof),
}

/// Why two circuits aren't compared under an assumption.
#[derive(Drop)]
pub enum UnderError {
    /// The first name that one circuit has and the other lacks.
    Interface(Word),
    /// The third circuit is no assumption on the inputs of both: its first fault.
    Assume(ShapeFault),
    /// No row of inputs meets it, and how that was found.
    Vacuous(SameBy),
    /// The unfoldings of this circuit's outputs in cycle 0 weigh more than 2,000,000 together; A comes first.
    TooLarge(Side),
    /// Memory was wanted and couldn't be had.
    NoMemory,
}

impl From<NoMemory> for UnderError {
    ghost use Rattle.std.specs.Prelude.{◌≡◌};
    ghost use Rattle.cycle_under.specs.declared.found.UnderError.TheVariants.{NoMemory};

    ghost from_gives = { λ _ e. e ≡ NoMemory };

    fn from(_error: NoMemory) -> UnderError {
        UnderError::NoMemory
    }
}

impl From<ResetError> for UnderError {
    ghost use Rattle.std.specs.Prelude.{◌≡◌};
    ghost use Rattle.cycle_under.specs.Searches.{reset_error};

    ghost from_gives = { λ s e. e ≡ reset_error s };

    fn from(error: ResetError) -> UnderError {
        match error {
            ResetError::TooLarge(side) => UnderError::TooLarge(side),
            ResetError::NoMemory => UnderError::NoMemory,
        }
    }
}

impl From<SearchError> for UnderError {
    ghost use Rattle.std.specs.Prelude.{◌≡◌};
    ghost use Rattle.cycle_under.specs.Searches.{search_error};

    ghost from_gives = { λ s e. e ≡ search_error s };

    fn from(error: SearchError) -> UnderError {
        match error {
            SearchError::Interface(name) => UnderError::Interface(name),
            SearchError::TooLarge(side) => UnderError::TooLarge(side),
            SearchError::NoMemory => UnderError::NoMemory,
        }
    }
}

impl From<TakeError> for UnderError {
    ghost use Rattle.std.specs.Prelude.{◌≡◌};
    ghost use Rattle.cycle_under.specs.Searches.{untaken_error};

    ghost from_gives = { λ s e. e ≡ untaken_error s };

    fn from(error: TakeError) -> UnderError {
        match error {
            TakeError::Fault(fault) => UnderError::Assume(fault),
            TakeError::Vacuous(by) => UnderError::Vacuous(by),
            TakeError::NoMemory => UnderError::NoMemory,
        }
    }
}
