//! Where queries read: the places of all their variables, how much an assumption weighs that is asked at these, and its function at
//! each of them.

mod functions;
mod gathered;

pub use crate::assume_functions::OwnFunction;
pub use functions::functions_at;
pub use gathered::{QueryPlaces, places_of_all};
pub use obligations::{Obligation, Queries, copy_name};
