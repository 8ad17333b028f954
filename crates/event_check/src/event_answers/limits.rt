//! Limits that are met before any pair is asked about.

ghost use Rattle.event_check.specs.event_answers.Limits.{CanTell, TellsLimit, TellsUnknown};

use event_comparison::EventError;
use event_setup::event_meaning::event_names::{
    CompareError, Names, RecoveryError, named_latch, named_other,
};
use obligations::outcome::LimitAt;

/// The limit where it isn't known which latches are enabled, or the refusal.
pub(crate) fn unrecovered(error: RecoveryError) -> Result<LimitAt, CompareError>
    ensures { TellsUnknown error result }
{
    match error {
        RecoveryError::Limit(side, name, proof) => Ok(LimitAt::Recover(side, name, proof)),
        RecoveryError::TooLarge(side) => Err(CompareError::TooLarge(side)),
        RecoveryError::NoMemory => Err(CompareError::NoMemory),
    }
}

/// The limit where the classes aren't known, or the refusal.
pub(crate) fn unclassed(names: &Names, error: EventError) -> Result<LimitAt, CompareError>
    requires { CanTell names.now error }
    ensures { TellsLimit names.now error result }
{
    match error {
        EventError::Limit {
            latch,
            other,
            proof,
        } => {
            let (side, name) = named_latch(names, latch)?;
            let other = named_other(names, other)?;
            Ok(LimitAt::Class(side, name, other, proof))
        }
        EventError::TooManyEvents => Err(CompareError::TooManyEvents),
        EventError::TooLarge(side) => Err(CompareError::TooLarge(side)),
        EventError::NoMemory => Err(CompareError::NoMemory),
    }
}
