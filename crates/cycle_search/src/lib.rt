//! A search for a difference of two circuits in runs from the latches' initial values, cycle by cycle, whether latches lie on cycles or
//! not.
#![tactic(auto)]

mod apart;
mod asked;
mod cycle;
mod depths;
mod found;
mod merging;
mod outputs;
mod search;
pub mod search_report;
mod setting;
mod shown;

pub use apart::{CycleFunctions, Literals, functions_apart};
pub use cycle::InCycle;
pub use found::{SearchError, SearchVerdict, Searched};
pub use outputs::unfold_side;
pub use search::{ends, mismatch_of, search_cycles, searched_of};
pub use setting::set_up_cycles;
pub use shown::show;
