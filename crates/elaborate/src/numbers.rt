//! Numbers of flat names.

ghost use Rattle.std.specs.Prelude.{◌≡◌, ◌++◌, map, slice_get, option_map, Some, IfOk, OnOk};
ghost use Rattle.elaborate.specs.State.{Keeps, AreNamed};

use blif_read::{Ids, NameTable, NoMemory, Seq, Word, put};
use std::alloc::Global;

/// The number of the name behind the prefix. A new name goes last.
pub(crate) fn number(
    alloc: Global,
    table: &mut NameTable,
    prefix: &[u8],
    name: &[u8],
) -> Result<u32, NoMemory>
    ensures named { IfOk result (λ n. slice_get table.new n ≡ Some (prefix.now ++ name.now)) }
    ensures keeps { OnOk result (Keeps table.old table.new) }
{
    let mut flat = prefix.to_vec(alloc)?;
    put(&mut flat, name)?;
    let whole = flat.as_slice();
    if let Some(number) = table.find(whole) {
        return Ok(number);
    }
    let number = table.len();
    table.add(alloc, whole)?;
    Ok(number)
}

/// The numbers of the names behind the prefix.
pub(crate) fn numbers(
    alloc: Global,
    table: &mut NameTable,
    prefix: &[u8],
    names: &[Word],
) -> Result<Ids, NoMemory>
    ensures named { IfOk result (λ ids. AreNamed table.new ids (map (λ name. prefix.now ++ name) names.now)) }
    ensures keeps { OnOk result (Keeps table.old table.new) }
{
    let mut ids = Seq::new(alloc);
    for name in names {
        ids.push(number(alloc, table, prefix, name.as_slice())?)?;
    }
    Ok(ids)
}

/// The number of the name behind the prefix, if there is a name.
pub(crate) fn number_of_option(
    alloc: Global,
    table: &mut NameTable,
    prefix: &[u8],
    name: &Option<Word>,
) -> Result<Option<u32>, NoMemory>
    ensures named { IfOk result (λ n. option_map (slice_get table.new) n ≡ option_map (λ word. Some (prefix.now ++ word)) name.now) }
    ensures keeps { OnOk result (Keeps table.old table.new) }
{
    match name {
        Some(name) => Ok(Some(number(alloc, table, prefix, name.as_slice())?)),
        None => Ok(None),
    }
}
