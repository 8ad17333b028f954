//! What it means that an outcome fits two circuits in the event form, and what a comparison answers: an outcome that fits, or the first refusal with its
//! cause. It has definitions alone: `event_check` finds the outcome, and `event_meaning` says what follows of it.
//!
//! The circuits that are compared in the event form, nets with latches cut out, and what their pairs say of the nets themselves. It has definitions and
//! lemmas alone.
//!
//! What the enables of two circuits and the signals of pairs visit and reach, and where it passes the numbers of the definition. It has definitions and
//! lemmas alone.

pub use crate::{EnabledLatches, EventSetup, RecoveryError, recover_both, set_up_events};
pub use event_form::event_findings::{
    EventVerdict, Frame, FrameBit, LimitAt, Separation, Separations, Spot, Spots, ToldSeparation,
    Unshown, UnshownFrame, UnshownPair, Verdict, Why,
};
pub use plain_check::under_base::compare_base::CompareError;
