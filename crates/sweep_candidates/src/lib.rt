//! Which nodes of an and-inverter graph may agree, and which nodes round two literals are looked at to prove it. What is handed out here
//! is a guess: no clause sees it, and what is merged is proved in `sweep`.
#![tactic(auto)]

pub mod case_split;
mod columns;
mod drawn;
mod facts;
mod first_nodes;
mod guide;
mod hints;
mod models;
mod stages;
mod windows;

pub use facts::{part_with_facts, plain_part};
pub use guide::{Guide, Part};
pub use hints::Hints;
pub use models::Model;
pub use stages::stage_of;
pub use windows::{cut_of, small_cone_of, window_of};
