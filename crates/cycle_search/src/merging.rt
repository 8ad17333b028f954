//! Which pairs' functions are tried to be made one before they are asked.

use aig::{Lit, MAX_TABLE_VARIABLES};
use cbf_unfold::unfold_places::Unfolded;
use sec_base::NoMemory;
use std::alloc::Global;

/// The literals of both functions of each pair, where they are two and one function has more than 16 variables: others are decided by tables.
pub(crate) fn wide_pairs(
    alloc: Global,
    left: &[Unfolded],
    right: &[Unfolded],
) -> Result<Vec<(Lit, Lit)>, NoMemory> {
    let mut pairs = Vec::new(alloc);
    for i in 0..left.len().min(right.len()) {
        let wide = left[i].vars.len().max(right[i].vars.len()) > MAX_TABLE_VARIABLES;
        if wide && left[i].lit.0 != right[i].lit.0 {
            pairs.push((left[i].lit, right[i].lit))?;
        }
    }
    Ok(pairs)
}
