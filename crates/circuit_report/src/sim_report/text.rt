//! The lines of a simulation's report, as text.

ghost use Rattle.std.specs.Prelude.{◌≡◌, ◌++◌, map, OnOk};
ghost use Rattle.witness_report.specs.Text.{names_text, row_text};
ghost use Rattle.circuit_report.specs.sim_report.Report.{cycle_line};

use flat_net::Port;
use sec_base::{NoMemory, put, put_digits, put_number};
use std::alloc::Global;

/// Puts one digit for each bit, or a dash where there are none.
fn put_bits(text: &mut Vec<u8>, bits: &[bool]) -> Result<(), NoMemory>
    ensures { OnOk result (text.new.items ≡ text.old.items ++ row_text bits.now) }
{
    if bits.is_empty() {
        return put(text, b"-");
    }
    put_digits(text, bits)
}

/// Puts the line of a cycle: the values of the outputs, and their marks.
pub(crate) fn put_cycle(
    alloc: Global,
    text: &mut Vec<u8>,
    cycle: u32,
    values: &[bool],
    marks: &[bool],
) -> Result<(), NoMemory>
    ensures { OnOk result (text.new.items ≡ text.old.items ++ cycle_line cycle (record { values = values.now; marks = marks.now })) }
{
    put(text, b"cycle ")?;
    put_number(alloc, text, u64::from(cycle))?;
    put(text, b" values ")?;
    put_bits(text, values)?;
    put(text, b" marks ")?;
    put_bits(text, marks)?;
    put(text, b"\n")
}

/// Puts the names of the ports, each behind a blank.
pub(crate) fn put_ports(text: &mut Vec<u8>, ports: &[Port]) -> Result<(), NoMemory>
    ensures { OnOk result (text.new.items ≡ text.old.items ++ names_text (map (λ port. port.name) ports.now)) }
{
    for port in ports {
        put(text, b" ")?;
        put(text, port.name.as_slice())?;
    }
    Ok(())
}
