//! Tables of names, each at its place.

ghost use Rattle.std.specs.Prelude.{◌≡◌, map, option_map, IfOk};
ghost use Rattle.circuit_theory.specs.Interface.{first_missing};
ghost use Rattle.base_tables.specs.Table.{AreDistinct};
ghost use Rattle.sec_setup.specs.ports.name_tables.Names.{input_names};

use base_tables::NameTable;
use flat_net::{Net, Port};
use sec_base::{NoMemory, Seq, Word, Words};
use std::alloc::Global;

/// The first of the names that isn't among the others.
pub fn first_missing<'a>(names: &'a NameTable, others: &NameTable) -> Option<&'a [u8]>
    ensures { option_map (λ name. name.now) result ≡ first_missing names.now others.now }
{
    for id in 0..names.len() {
        let name = names.name(id);
        if !others.has(name) {
            return Some(name);
        }
    }
    None
}

/// The table of the names, each at its place. None stands twice.
pub fn table_of_names(alloc: Global, names: &Words) -> Result<NameTable, NoMemory>
    requires { AreDistinct names.now }
    ensures { IfOk result (λ table. table ≡ names.now) }
{
    let mut table = NameTable::new(alloc);
    for name in names.as_slice() {
        table.add(alloc, name.as_slice())?;
    }
    Ok(table)
}

/// The table of the ports' names, each at its place. None stands twice.
pub fn table_of_ports(alloc: Global, ports: &[Port]) -> Result<NameTable, NoMemory>
    requires { AreDistinct (map (λ p. p.name) ports.now) }
    ensures { IfOk result (λ table. table ≡ map (λ p. p.name) ports.now) }
{
    let mut table = NameTable::new(alloc);
    for port in ports {
        table.add(alloc, port.name.as_slice())?;
    }
    Ok(table)
}

/// The table of the names of a net's inputs, each at its place.
pub fn table_of_inputs(alloc: Global, net: &Net) -> Result<NameTable, NoMemory>
    ensures { IfOk result (λ table. table ≡ input_names net.now) }
{
    net.keeps();
    table_of_ports(alloc, net.inputs())
}

/// The name as a word of its own.
pub fn word_of(alloc: Global, name: &[u8]) -> Result<Word, NoMemory>
    ensures { IfOk result (λ word. word ≡ name.now) }
{
    Ok(Seq::from_vec(name.to_vec(alloc)?))
}
