//! What a header tells.

/// How many variables and clauses a header tells.
#[derive(Clone, Copy)]
pub struct Header {
    pub variables: u32,
    pub clauses: u32,
}
