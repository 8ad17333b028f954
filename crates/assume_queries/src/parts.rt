//! What an assumption's functions give at some of the places.

ghost use Rattle.std.specs.Prelude.{◌≡◌, ◌<◌, length, All, IfOk};
ghost use Rattle.assume_queries.specs.Parts.{literals_at, variables_at};

use aig::Lit;
use cbf_unfold::unfold_places::Unfolded;
use sec_base::NoMemory;
use std::alloc::Global;

/// The literals of the functions with these numbers.
pub(crate) fn literals(
    alloc: Global,
    own: &[u32],
    functions: &[Unfolded],
) -> Result<Vec<Lit>, NoMemory>
    requires { All (λ n. n < length functions.now) own.now }
    ensures { IfOk result (λ lits. lits.items ≡ literals_at functions.now own.now) }
{
    let mut lits = Vec::new(alloc);
    for n in own {
        let function = &functions[*n as usize];
        lits.push(function.lit)?;
    }
    Ok(lits)
}

/// The variables of the functions with these numbers, one function's behind the other's.
pub(crate) fn variables(
    alloc: Global,
    own: &[u32],
    functions: &[Unfolded],
) -> Result<Vec<u32>, NoMemory>
    requires { All (λ n. n < length functions.now) own.now }
    ensures { IfOk result (λ vars. vars.items ≡ variables_at functions.now own.now) }
{
    let mut vars = Vec::new(alloc);
    for n in own {
        let function = &functions[*n as usize];
        vars.extend_from_slice(function.vars.as_slice())?;
    }
    Ok(vars)
}
