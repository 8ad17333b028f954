//! The places at which a query reads inputs: the shifts or cycles of its variables.

mod laws;
mod places;

pub use laws::variables_are_grouped;
pub use places::places_of;
