//! Names of pairs.

ghost use Rattle.std.specs.Prelude.{◌≡◌, IfOk};

use crate::outcome::{NoMemory, PairName};

/// A copy of a pair's name.
pub fn copy_name(name: &PairName) -> Result<PairName, NoMemory>
    ensures { IfOk result (λ made. made ≡ name.now) }
{
    match name {
        PairName::Output(word) => Ok(PairName::Output(word.copy()?)),
        PairName::Next(word) => Ok(PairName::Next(word.copy()?)),
    }
}
