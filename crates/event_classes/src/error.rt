//! Why classes aren't made.

use class_search::class_fits::Proof;
use sec_base::{NoMemory, Side, Tag};

/// Why classes aren't made.
#[derive(Drop)]
pub enum EventError {
    /// More than 10,000 event nodes are reached, more than 500 classes are founded, or more than 30,000 latches are enabled.
    TooManyEvents,
    /// What the unfoldings of one circuit visit weighs more than 2,000,000.
    TooLarge(Side),
    /// A query of the latch met the limit: with `always`, where there is no other latch, or with that latch, the first one of its class
    /// that isn't known to agree.
    Limit {
        latch: Tag,
        other: Option<Tag>,
        proof: Proof,
    },
    /// Memory was wanted.
    NoMemory,
}

impl From<NoMemory> for EventError {
    ghost use Rattle.std.specs.Prelude.{◌≡◌};
    ghost use Rattle.event_classes.specs.declared.error.EventError.TheVariants as event_error;

    ghost from_gives = { λ _ e. e ≡ event_error.NoMemory };

    fn from(_error: NoMemory) -> EventError {
        EventError::NoMemory
    }
}
