//! What the status and the report of a comparison mean for the circuits that the files spell, and when these can be compared. It has
//! definitions, lemmas and computed examples alone: what is found stands in `check_found`.

pub mod check_found;
pub mod event_texts;
pub mod event_texts_under;
