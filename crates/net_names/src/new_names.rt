//! The names of a net's signals where its latches have new ones.

ghost use Rattle.std.specs.Prelude.{◌≡◌, ◌++◌, ◌<◌, ◌≤◌, ◌∷◌, [], List, ℕ, false, map, take, length, IfOk, IfErr, OnOk, OnErr};
ghost use Rattle.base_tables.specs.Table.{is_among};
ghost use Rattle.net_names.specs.Laid.{IsLaid};
ghost use Rattle.net_names.specs.NewNames.{AreNewNames};
ghost use Rattle.net_names.specs.Pairs.{RenameFails};
ghost use Rattle.net_names.specs.Renamed.{new_name};

use crate::latch_pairs::LatchPairs;
use crate::renaming::RenameError;
use flat_net::{NameTable, Net, NoMemory, Signal};
use std::alloc::Global;

/// Puts the names of the inputs.
fn add_input_names(alloc: Global, names: &mut NameTable, net: &Net) -> Result<(), NoMemory>
    requires { names.old ≡ [] }
    ensures { OnOk result (names.new ≡ take (length net.now.inputs) net.now.names) }
{
    net.keeps();
    for s in 0..net.inputs().len() as u32 {
        names.add(alloc, net.name(Signal(s)))?;
    }
    Ok(())
}

/// Puts the new names of the latches behind those of the inputs.
fn add_latch_names(
    alloc: Global,
    names: &mut NameTable,
    net: &Net,
    pairs: &LatchPairs,
) -> Result<(), RenameError>
    requires laid { IsLaid net.now }
    requires first { names.old ≡ take (length net.now.inputs) net.now.names }
    ensures ok { OnOk result (names.new ≡ take (length net.now.inputs) net.now.names ++ map (λ l. new_name pairs.now l.name) net.now.latches) }
    ensures err { IfErr result (RenameFails net.now pairs.now) }
{
    net.keeps();
    for latch in net.latches() {
        let name = pairs.new_name(latch.name.as_slice());
        if !names.add(alloc, name)? {
            return Err(RenameError::Taken(pairs.line_of(name)));
        }
    }
    Ok(())
}

/// Makes the name longer than so many bytes.
fn lengthen(name: &mut Vec<u8>, least: usize) -> Result<(), NoMemory>
    ensures longer { OnOk result (least < length name.new.items) }
    ensures grown { OnOk result (length name.old.items ≤ length name.new.items) }
{
    while name.len() <= least {
        name.push(b'#')?;
    }
    Ok(())
}

/// A name that is none of these: it is longer than each of them.
fn longer_name(alloc: Global, names: &NameTable) -> Result<Vec<u8>, NoMemory>
    ensures { IfOk result (λ name. is_among names.now name.items ≡ false) }
{
    let mut name = Vec::new(alloc);
    for id in 0..names.len() {
        lengthen(&mut name, names.name(id).len())?;
    }
    Ok(name)
}

/// Puts a name for a gate's signal: its own, where no other signal has it now, and else one that is made from it.
fn add_gate_name(alloc: Global, names: &mut NameTable, name: &[u8]) -> Result<(), NoMemory>
    ensures { OnOk result ((put : List ℕ) × (names.new ≡ names.old ++ put ∷ [])) }
{
    if names.add(alloc, name)? {
        return Ok(());
    }
    let mut other = name.to_vec(alloc)?;
    other.push(b'#')?;
    if names.add(alloc, other.as_slice())? {
        return Ok(());
    }
    let longer = longer_name(alloc, names)?;
    names.add(alloc, longer.as_slice())?;
    Ok(())
}

/// Puts names of the gates' signals behind the others.
fn add_gate_names(alloc: Global, names: &mut NameTable, net: &Net) -> Result<(), NoMemory>
    ensures { OnOk result ((more : List (List ℕ)) × (length more ≡ length net.now.gates) × (names.new ≡ names.old ++ more)) }
{
    net.keeps();
    for gate in net.gates() {
        add_gate_name(alloc, names, net.name(gate.out))?;
    }
    Ok(())
}

/// The names of all signals, where the latches have their new ones. An input keeps its name, and so does a gate where it can.
pub(crate) fn new_names(
    alloc: Global,
    net: &Net,
    pairs: &LatchPairs,
) -> Result<NameTable, RenameError>
    requires { IsLaid net.now }
    ensures ok { IfOk result (AreNewNames pairs.now net.now) }
    ensures err { IfErr result (RenameFails net.now pairs.now) }
{
    let mut names = NameTable::new(alloc);
    add_input_names(alloc, &mut names, net)?;
    add_latch_names(alloc, &mut names, net, pairs)?;
    add_gate_names(alloc, &mut names, net)?;
    names.keeps();
    Ok(names)
}
