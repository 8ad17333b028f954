//! Why two circuits aren't compared behind the rows of a stimulus under an assumption.

use cycle_under::UnderError;
use job_circuit::replay::ReplayError;
use sec_base::NoMemory;

/// Why two circuits aren't compared.
#[derive(Drop)]
pub(crate) enum Fault {
    /// The stimulus doesn't fit both.
    Header(ReplayError),
    /// The circuits, as they begin behind the rows, aren't searched under the assumption.
    Search(UnderError),
    /// Memory was wanted and couldn't be had.
    NoMemory,
}

impl From<NoMemory> for Fault {
    ghost use Rattle.std.specs.Prelude.{◌≡◌};
    ghost use Rattle.job_after_under.specs.declared.fault.Fault.TheVariants.{NoMemory};

    ghost from_gives = { λ _ e. e ≡ NoMemory };

    fn from(_error: NoMemory) -> Fault {
        Fault::NoMemory
    }
}

impl From<ReplayError> for Fault {
    ghost use Rattle.std.specs.Prelude.{◌≡◌};
    ghost use Rattle.job_after_under.specs.declared.fault.Fault.TheVariants.{Header};

    ghost from_gives = { λ s e. e ≡ Header s };

    fn from(error: ReplayError) -> Fault {
        Fault::Header(error)
    }
}

impl From<UnderError> for Fault {
    ghost use Rattle.std.specs.Prelude.{◌≡◌};
    ghost use Rattle.job_after_under.specs.declared.fault.Fault.TheVariants.{Search};

    ghost from_gives = { λ s e. e ≡ Search s };

    fn from(error: UnderError) -> Fault {
        Fault::Search(error)
    }
}
