//! Why a pair of outputs has no clauses.

use plain_asked::PlainError;
use plain_check::under_base::compare_base::CompareError;
use sec_base::{NoMemory, Word};
use sec_setup::SetupError;

/// Why a pair of outputs has no clauses.
#[derive(Drop)]
pub enum CertError {
    /// The circuits aren't compared, or memory was wanted and couldn't be had.
    Compare(CompareError),
    /// No output has this name.
    Pair(Word),
}

impl From<NoMemory> for CertError {
    ghost use Rattle.std.specs.Prelude.{◌≡◌};
    ghost use Rattle.plain_check.specs.declared.under_base.compare_base.error.CompareError.TheVariants.{NoMemory};
    ghost use Rattle.job_cert.specs.declared.pair_clauses.error.CertError.TheVariants.{Compare};

    ghost from_gives = { λ _ e. e ≡ Compare NoMemory };

    fn from(_error: NoMemory) -> CertError {
        CertError::Compare(CompareError::NoMemory)
    }
}

impl From<SetupError> for CertError {
    ghost use Rattle.std.specs.Prelude.{◌≡◌};
    ghost use Rattle.plain_check.specs.under_base.compare_base.Compared.{refusal_of};
    ghost use Rattle.job_cert.specs.declared.pair_clauses.error.CertError.TheVariants.{Compare};

    ghost from_gives = { λ s e. e ≡ Compare (refusal_of s) };

    fn from(error: SetupError) -> CertError {
        CertError::Compare(CompareError::from(error))
    }
}

impl From<PlainError> for CertError {
    ghost use Rattle.std.specs.Prelude.{◌≡◌};
    ghost use Rattle.job_cert.specs.pair_clauses.Clauses.{size_refusal_of};
    ghost use Rattle.job_cert.specs.declared.pair_clauses.error.CertError.TheVariants.{Compare};

    ghost from_gives = { λ s e. e ≡ Compare (size_refusal_of s) };

    fn from(error: PlainError) -> CertError {
        match error {
            PlainError::TooLarge(side) => CertError::Compare(CompareError::TooLarge(side)),
            PlainError::NoMemory => CertError::Compare(CompareError::NoMemory),
        }
    }
}
