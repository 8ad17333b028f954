//! An assumption over more inputs than it may read.

ghost use Rattle.std.specs.Prelude.{◌≡◌, ℕ, ◌+◌, ◌++◌, List, false, replicate, IfOk};
ghost use Rattle.flat_net.specs.View.{NetView};
ghost use Rattle.assume_queries.specs.assume_sequences.assume_taken.Premises.{IsPremiseOf};

use crate::assume_sequences::Premise;
use sec_base::{Bits, NoMemory};

/// The premise for so many inputs more, all of which are 0 in its row.
pub fn widen(premise: Premise, more: usize) -> Result<Premise, NoMemory>
    ensures { IfOk result (λ p. (names : List (List ℕ)) (c : NetView) (count : ℕ) → IsPremiseOf names c count premise → IsPremiseOf names c (count + more) p) }
{
    let Premise {
        own,
        weight,
        meeting,
    } = premise;
    let meeting = lengthened(meeting, more)?;
    Ok(Premise {
        own,
        weight,
        meeting,
    })
}

/// The row with so many zeros behind it.
fn lengthened(row: Bits, more: usize) -> Result<Bits, NoMemory>
    ensures { IfOk result (λ longer. longer ≡ row ++ replicate more false) }
{
    let mut longer = row;
    for _i in 0..more {
        longer.push(false)?;
    }
    Ok(longer)
}
