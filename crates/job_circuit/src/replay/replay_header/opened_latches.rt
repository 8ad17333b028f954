//! Which latches the names of a stimulus cut open.

ghost use Rattle.std.specs.Prelude.{◌≡◌, IfOk};
ghost use Rattle.sec_setup.specs.ports.name_tables.Names.{input_names};
ghost use Rattle.job_circuit.specs.replay.replay_header.Header.{is_opened, opened, Opens};

use crate::replay::replay_header::error::ReplayError;
use crate::replay::replay_header::header::{InputNames, match_header};
use base_tables::NameTable;
use flat_net::Net;
use sec_base::NoMemory;
use std::alloc::Global;

/// Whether a latch of this name is cut open: the header names it, and it is no input.
fn is_opened(a: &Net, b: &Net, inputs: &InputNames, header: &NameTable, name: &[u8]) -> bool
    requires left { inputs.now.left ≡ input_names a.now }
    requires right { inputs.now.right ≡ input_names b.now }
    ensures { result ≡ is_opened a.now b.now header.now name.now }
{
    let _ = a.inputs();
    let _ = b.inputs();
    header.has(name) && !inputs.has(name)
}

/// The names of the latches of A that the header names and that are no inputs, in A's order.
fn opened_names(
    alloc: Global,
    a: &Net,
    b: &Net,
    inputs: &InputNames,
    header: &NameTable,
) -> Result<NameTable, NoMemory>
    requires left { inputs.now.left ≡ input_names a.now }
    requires right { inputs.now.right ≡ input_names b.now }
    ensures { IfOk result (λ names. names ≡ opened a.now b.now header.now) }
{
    a.keeps();
    let mut names = NameTable::new(alloc);
    for latch in a.latches() {
        let name = latch.name.as_slice();
        if !is_opened(a, b, inputs, header, name) {
            continue;
        }
        names.add(alloc, name)?;
    }
    Ok(names)
}

/// The names of the latches that a stimulus with this header cuts open in both circuits, in A's order of latches. First a name is
/// refused that is neither an input of one of the circuits nor a latch of both, then an input of both that the header lacks.
pub fn opened_by(
    alloc: Global,
    a: &Net,
    b: &Net,
    header: &NameTable,
) -> Result<NameTable, ReplayError>
    ensures { Opens a.now b.now header.now result }
{
    let inputs = InputNames::new(alloc, a, b)?;
    match_header(alloc, a, b, &inputs, header)?;
    let names = opened_names(alloc, a, b, &inputs, header)?;
    Ok(names)
}
