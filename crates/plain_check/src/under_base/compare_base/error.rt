//! Why two circuits aren't compared.

use assume_laws::assume_shape::ShapeFault;
use outcome_fits::plain_meaning::SetupError;
use reset_form::reset_functions::SameBy;
use sec_base::{NoMemory, Side, Word, Words};

/// Why two circuits aren't compared.
#[derive(Drop)]
pub enum CompareError {
    /// The first name that one circuit has and the other lacks, in the order A's inputs missing in B, B's in A, A's outputs
    /// missing in B, B's in A.
    Interface(Word),
    /// The names of the latches of a cycle of this circuit's latch graph, each read by the next, the last by the first, beginning
    /// with the least name in byte order; A comes first.
    Cyclic(Side, Words),
    /// The names of the latches of a cycle of this circuit that no latch breaks that both circuits have under one name, in the same
    /// form, where latches may be cut open; A comes first.
    Unpaired(Side, Words),
    /// The unfoldings of this circuit's outputs weigh more than 2,000,000 together, where latches are cut open those of the cut
    /// circuit's; A comes first.
    TooLarge(Side),
    /// In the event mode both circuits together have more than 30,000 enabled latches, or more than 500 event classes besides the one
    /// that always loads, or reach more than 10,000 event nodes.
    TooManyEvents,
    /// The circuit that is to be assumed is no assumption on the inputs of the two circuits: its first fault.
    Assume(ShapeFault),
    /// No values of the inputs meet the assumption, and what shows it.
    Vacuous(SameBy),
    /// Memory was wanted and couldn't be had.
    NoMemory,
}

impl From<NoMemory> for CompareError {
    ghost use Rattle.std.specs.Prelude.{◌≡◌};
    ghost use Rattle.plain_check.specs.declared.under_base.compare_base.error.CompareError.TheVariants.{NoMemory};

    ghost from_gives = { λ _ e. e ≡ NoMemory };

    fn from(_error: NoMemory) -> CompareError {
        CompareError::NoMemory
    }
}

impl From<SetupError> for CompareError {
    ghost use Rattle.std.specs.Prelude.{◌≡◌};
    ghost use Rattle.plain_check.specs.under_base.compare_base.Compared.{refusal_of};

    ghost from_gives = { λ s e. e ≡ refusal_of s };

    fn from(error: SetupError) -> CompareError {
        match error {
            SetupError::Interface(name) => CompareError::Interface(name),
            SetupError::Cyclic(side, names) => CompareError::Cyclic(side, names),
            SetupError::Unpaired(side, names) => CompareError::Unpaired(side, names),
            SetupError::NoMemory => CompareError::NoMemory,
        }
    }
}
