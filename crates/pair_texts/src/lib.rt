//! What the answer of a comparison by cycles means for the circuits that two texts spell, and for those of three where the third is an
//! assumption. It has definitions, lemmas and computed examples alone.
#![tactic(auto)]

pub mod assume_texts;
pub mod check_texts;
pub mod design_rows;
