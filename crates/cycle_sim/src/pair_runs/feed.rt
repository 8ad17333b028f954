//! A circuit that is fed the rows of a stimulus.

ghost use Rattle.std.specs.Prelude.{◌≡◌, length, All, IfOk};
ghost use Rattle.cycle_sim.specs.pair_runs.Feeding.{IsColumn, AreColumns, IsWithin, bit_of, reordered};
ghost use Rattle.cycle_sim.specs.pair_runs.Feeds.{IsFresh, CanStep, Steps};

use crate::{MarkedSim, Power};
use base_tables::NameTable;
use flat_net::Net;
use sec_base::{Bits, NoMemory};
use std::alloc::Global;

/// A circuit's run with its marks, and where the bits of its inputs stand in the rows of a stimulus.
pub(crate) struct Feed<'a> {
    pub(crate) sim: MarkedSim<'a>,
    /// For each input the column of its name, where there is one.
    columns: Vec<Option<u32>>,
    /// Room for the bits of the inputs.
    bits: Vec<bool>,
}

/// It is let go by one call: an owner isn't taken apart field by field at each way out.
impl Drop for Feed<'_> {
    fn drop(self) {
        let Feed {
            sim: _,
            columns: _,
            bits: _,
        } = self;
    }
}

impl<'a> Feed<'a> {
    /// The net before its first cycle, with 0 in each latch. The latches whose bits are set count as enabled.
    pub(crate) fn new(
        alloc: Global,
        net: &'a Net,
        enabled: &Bits,
        header: &NameTable,
    ) -> Result<Feed<'a>, NoMemory>
        requires { length enabled.now ≡ length net.now.latches }
        ensures { IfOk result (IsFresh net.now enabled.now header.now) }
    {
        let sim = MarkedSim::new(alloc, net, &Power::Zeros, enabled)?;
        let columns = columns_of(alloc, net, header)?;
        let bits = vec![in alloc; false; columns.len()]?;
        Ok(Feed { sim, columns, bits })
    }

    /// Computes the next cycle from a row of the stimulus. It takes no memory.
    pub(crate) fn step(&mut self, row: &[bool])
        requires { CanStep self.old row.now }
        ensures { Steps self.old row.now self.new }
    {
        reorder(row, &self.columns, &mut self.bits);
        self.sim.step(&self.bits);
    }
}

/// For each input the column of its name, where there is one.
fn columns_of(alloc: Global, net: &Net, header: &NameTable) -> Result<Vec<Option<u32>>, NoMemory>
    ensures { IfOk result (λ columns. AreColumns net.now header.now columns.items) }
{
    let mut columns = Vec::new(alloc);
    for port in net.inputs() {
        columns.push(column_of(header, port.name.as_slice()))?;
    }
    Ok(columns)
}

/// The column of the name, where there is one.
fn column_of(header: &NameTable, name: &[u8]) -> Option<u32>
    ensures { IsColumn header.now name.now result }
{
    header.find(name)
}

/// The bit that stands in the column, and 0 where there is none.
fn bit_of(row: &[bool], column: Option<u32>) -> bool
    requires { IsWithin (length row.now) column }
    ensures { result ≡ bit_of row.now column }
{
    match column {
        Some(place) => row[place as usize],
        None => false,
    }
}

/// Puts a row's bits in the order of the columns.
fn reorder(row: &[bool], columns: &[Option<u32>], bits: &mut [bool])
    requires within { All (IsWithin (length row.now)) columns.now }
    requires size { length bits.old ≡ length columns.now }
    ensures { bits.new ≡ reordered columns.now row.now }
{
    for (i, column) in columns.iter().enumerate() {
        bits[i] = bit_of(row, *column);
    }
}
