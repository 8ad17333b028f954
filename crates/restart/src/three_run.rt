//! The three-valued run over the rows of a stimulus.

ghost use Rattle.std.specs.Prelude.{◌≡◌, ◌-◌, ℕ, Bool, List, None, Some, length, slice_get, slice_index_or, IfOk};
ghost use Rattle.std.specs.List.{Contains};
ghost use Rattle.flat_net.specs.View.{circuit_of};
ghost use Rattle.circuit_laws.specs.start_laws.Known.{IsKnown};
ghost use Rattle.restart.specs.Behind.{IsColumnOf, AreColumnsOf, IsThreeRunTo, AreKnownBehind, KnowsOutput};

use crate::cycle::{compute, take_over};
use flat_net::{Bits, NameTable, Net, NoMemory};
use std::alloc::Global;

/// What is known of the latches behind the rows, in the net's order of latches, where nothing is known of them before, and the inputs have
/// the rows' bits under their names.
pub fn known_behind(
    alloc: Global,
    net: &Net,
    names: &NameTable,
    rows: &[Bits],
) -> Result<Vec<Option<bool>>, NoMemory>
    ensures size { IfOk result (λ known. length known.items ≡ length net.now.latches) }
    ensures known { IfOk result (λ known. AreKnownBehind net.now names.now rows.now known.items) }
{
    let columns = columns_of(alloc, net, names)?;
    let mut latches = vec![in alloc; None; net.latches().len()]?;
    let mut values = vec![in alloc; None; net.size() as usize]?;
    run(net, &columns, rows, &mut latches, &mut values);
    Ok(latches)
}

/// What is known of the output of this name in the last of the rows. Without such an output, or without rows, nothing is.
pub fn known_output(
    alloc: Global,
    net: &Net,
    names: &NameTable,
    rows: &[Bits],
    name: &[u8],
) -> Result<Option<bool>, NoMemory>
    ensures { IfOk result (KnowsOutput net.now names.now rows.now name.now) }
{
    net.keeps();
    let columns = columns_of(alloc, net, names)?;
    let mut latches = vec![in alloc; None; net.latches().len()]?;
    let mut values = vec![in alloc; None; net.size() as usize]?;
    Ok(run_to(net, &columns, rows, &mut latches, &mut values, name))
}

/// What is known of the output of this name in the last row, once it has run over all rows.
fn run_to(
    net: &Net,
    columns: &[u32],
    rows: &[Bits],
    latches: &mut [Option<bool>],
    values: &mut [Option<bool>],
    name: &[u8],
) -> Option<bool>
    requires columns { length columns.now ≡ length net.now.inputs }
    requires latches { length latches.old ≡ length net.now.latches }
    requires values { length values.old ≡ length net.now.drivers }
    requires none { (j : ℕ) → slice_index_or latches.old j None ≡ None }
    requires nothing { (p : ℕ) → slice_index_or values.old p None ≡ None }
    ensures { (bit : Bool) → result ≡ Some bit → (p : ℕ) × Contains (circuit_of net.now).outputs (record { name = name.now; place = p }) × IsKnown (circuit_of net.now) columns.now rows.now (length rows.now - 1) p bit }
{
    net.keeps();
    run(net, columns, rows, latches, values);
    value_of(net, values, name)
}

/// What is known of the output of this name; nothing without one.
fn value_of(net: &Net, values: &[Option<bool>], name: &[u8]) -> Option<bool>
    requires { length values.now ≡ length net.now.drivers }
    ensures { (bit : Bool) → result ≡ Some bit → (p : ℕ) × Contains (circuit_of net.now).outputs (record { name = name.now; place = p }) × (slice_get values.now p ≡ Some (Some bit)) }
{
    net.keeps();
    for port in net.outputs() {
        if port.name.as_slice() == name {
            return values[port.signal.0 as usize];
        }
    }
    None
}

/// For each input the column of its name, and one behind all where there is none.
pub fn columns_of(alloc: Global, net: &Net, names: &NameTable) -> Result<Vec<u32>, NoMemory>
    ensures { IfOk result (λ columns. AreColumnsOf net.now names.now columns.items) }
{
    let mut columns = Vec::new(alloc);
    for port in net.inputs() {
        columns.push(column_of(names, port.name.as_slice()))?;
    }
    Ok(columns)
}

/// The column of the name, and one behind all where there is none.
fn column_of(names: &NameTable, name: &[u8]) -> u32
    ensures { IsColumnOf names.now name.now result }
{
    match names.find(name) {
        Some(column) => column,
        None => names.len(),
    }
}

/// Runs over the rows: puts what is known of all signals in the last one, and of the latches behind it.
fn run(
    net: &Net,
    columns: &[u32],
    rows: &[Bits],
    latches: &mut [Option<bool>],
    values: &mut [Option<bool>],
)
    requires columns { length columns.now ≡ length net.now.inputs }
    requires latches { length latches.old ≡ length net.now.latches }
    requires values { length values.old ≡ length net.now.drivers }
    requires none { (j : ℕ) → slice_index_or latches.old j None ≡ None }
    requires nothing { (p : ℕ) → slice_index_or values.old p None ≡ None }
    ensures size { length latches.new ≡ length latches.old }
    ensures values_size { length values.new ≡ length values.old }
    ensures run { IsThreeRunTo net.now columns.now rows.now latches.new values.new }
    ensures known { (names : List (List ℕ)) → AreColumnsOf net.now names columns.now → AreKnownBehind net.now names rows.now latches.new }
{
    net.keeps();
    for row in rows {
        compute(net, columns, row.as_slice(), latches, values);
        take_over(net, values, latches);
    }
}
