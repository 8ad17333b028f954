//! Names that are added to tables, and tokens as words.

ghost use Rattle.std.specs.Prelude.{◌≡◌, ◌++◌, true, not, map, IfOk, OnOk};
ghost use Rattle.blif_read.specs.Fault.{repeats};
ghost use Rattle.blif_read.specs.Spelled.{with_new};

use crate::blif_lines::{NameTable, NoMemory, Seq, Word, Words};
use std::alloc::Global;

/// The token as a word of its own.
pub(crate) fn word_of(alloc: Global, token: &[u8]) -> Result<Word, NoMemory>
    ensures { IfOk result (λ word. word ≡ token.now) }
{
    Ok(Seq::from_vec(token.to_vec(alloc)?))
}

/// The tokens as words of their own.
pub(crate) fn words_of(alloc: Global, tokens: &[&[u8]]) -> Result<Words, NoMemory>
    ensures { IfOk result (λ words. words ≡ map (λ t. t.now) tokens.now) }
{
    let mut words = Seq::new(alloc);
    for token in tokens {
        words.push(word_of(alloc, token)?)?;
    }
    Ok(words)
}

/// Adds the names, and says whether each of them was new.
pub(crate) fn add_names(
    alloc: Global,
    table: &mut NameTable,
    names: &[&[u8]],
) -> Result<bool, NoMemory>
    ensures fresh { IfOk result (λ fresh. fresh ≡ not (repeats table.old (map (λ n. n.now) names.now))) }
    ensures ok { IfOk result (λ fresh. fresh ≡ true → table.new ≡ table.old ++ map (λ n. n.now) names.now) }
{
    for name in names {
        if !table.add(alloc, name)? {
            return Ok(false);
        }
    }
    Ok(true)
}

/// Adds those of the names that are not in the table yet.
pub(crate) fn add_new(alloc: Global, table: &mut NameTable, names: &[&[u8]]) -> Result<(), NoMemory>
    ensures { OnOk result (table.new ≡ with_new table.old (map (λ n. n.now) names.now)) }
{
    for name in names {
        table.add(alloc, name)?;
    }
    Ok(())
}
