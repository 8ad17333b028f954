//! Assignments that tell two literals apart.

/// Variables and their bits.
#[derive(Drop)]
pub struct Model {
    pub vars: Vec<u32>,
    pub bits: Vec<bool>,
}
