//! The columns of a stimulus, in the order of a circuit's inputs.

ghost use Rattle.std.specs.Prelude.{◌≡◌, ◌<◌, None, All, length, IfOk};
ghost use Rattle.circuit_theory.specs.Interface.{first_missing};
ghost use Rattle.sec_setup.specs.ports.name_tables.Names.{input_names};
ghost use Rattle.circuit_report.specs.sim_report.Cycles.{AreColumns, reordered};

use base_tables::NameTable;
use flat_net::Net;
use sec_base::NoMemory;
use std::alloc::Global;

/// For each input the column of its name. Each input has one.
pub(crate) fn columns_of(alloc: Global, net: &Net, names: &NameTable) -> Result<Vec<u32>, NoMemory>
    requires { first_missing (input_names net.now) names.now ≡ None }
    ensures { IfOk result (λ columns. AreColumns net.now names.now columns.items) }
{
    let mut columns = Vec::new(alloc);
    for port in net.inputs() {
        let Some(column) = names.find(port.name.as_slice()) else {
            unreachable!();
        };
        columns.push(column)?;
    }
    Ok(columns)
}

/// Puts a row's bits in the order of the columns.
pub(crate) fn reorder(row: &[bool], columns: &[u32], bits: &mut [bool])
    requires within { All (λ k. k < length row.now) columns.now }
    requires size { length bits.old ≡ length columns.now }
    ensures { bits.new ≡ reordered columns.now row.now }
{
    for (i, column) in columns.iter().enumerate() {
        bits[i] = row[*column as usize];
    }
}
