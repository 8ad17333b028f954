//! Whether the names of a stimulus fit two circuits.

ghost use Rattle.std.specs.Prelude.{◌≡◌, ◌&&◌, ◌||◌, option_map, IfOk};
ghost use Rattle.base_tables.specs.Table.{is_among};
ghost use Rattle.sec_setup.specs.ports.name_tables.Names.{input_names, latch_names};
ghost use Rattle.job_circuit.specs.replay.replay_header.Header.{is_known, first_unknown, FitsOr};

use crate::replay::replay_header::error::ReplayError;
use base_tables::NameTable;
use flat_net::Net;
use sec_base::NoMemory;
use sec_setup::ports::inputs_beside;
use sec_setup::ports::name_tables::{first_missing, table_of_inputs, word_of};
use std::alloc::Global;

/// The names of both circuits' inputs.
pub(crate) struct InputNames {
    left: NameTable,
    right: NameTable,
}

/// It is let go by one call: an owner isn't taken apart field by field at each way out.
impl Drop for InputNames {
    fn drop(self) {
        let InputNames { left: _, right: _ } = self;
    }
}

impl InputNames {
    pub(crate) fn new(alloc: Global, a: &Net, b: &Net) -> Result<InputNames, NoMemory>
        ensures left { IfOk result (λ names. names.left ≡ input_names a.now) }
        ensures right { IfOk result (λ names. names.right ≡ input_names b.now) }
    {
        let left = table_of_inputs(alloc, a)?;
        let right = table_of_inputs(alloc, b)?;
        Ok(InputNames { left, right })
    }

    /// Whether one of the circuits has an input of this name.
    pub(crate) fn has(&self, name: &[u8]) -> bool
        ensures { result ≡ (is_among self.now.left name.now || is_among self.now.right name.now) }
    {
        self.left.has(name) || self.right.has(name)
    }
}

/// Whether the net has a latch of this name.
fn has_latch(net: &Net, name: &[u8]) -> bool
    ensures { result ≡ is_among (latch_names net.now) name.now }
{
    net.latch_named(name).is_some()
}

/// Whether one of the circuits has an input of this name, or both a latch.
fn is_known(a: &Net, b: &Net, inputs: &InputNames, name: &[u8]) -> bool
    requires left { inputs.now.left ≡ input_names a.now }
    requires right { inputs.now.right ≡ input_names b.now }
    ensures { result ≡ is_known a.now b.now name.now }
{
    inputs.has(name) || (has_latch(a, name) && has_latch(b, name))
}

/// The first of the names that is neither an input of one of the circuits nor a latch of both.
fn first_unknown<'a>(
    a: &Net,
    b: &Net,
    inputs: &InputNames,
    names: &'a NameTable,
) -> Option<&'a [u8]>
    requires left { inputs.now.left ≡ input_names a.now }
    requires right { inputs.now.right ≡ input_names b.now }
    ensures { option_map (λ name. name.now) result ≡ first_unknown a.now b.now names.now }
{
    for id in 0..names.len() {
        let name = names.name(id);
        if !is_known(a, b, inputs, name) {
            return Some(name);
        }
    }
    None
}

/// Refuses the first name that is unknown, and then the first shared input that is missing.
pub(crate) fn match_header(
    alloc: Global,
    a: &Net,
    b: &Net,
    inputs: &InputNames,
    header: &NameTable,
) -> Result<(), ReplayError>
    requires left { inputs.now.left ≡ input_names a.now }
    requires right { inputs.now.right ≡ input_names b.now }
    ensures { FitsOr a.now b.now header.now result }
{
    if let Some(name) = first_unknown(a, b, inputs, header) {
        return Err(ReplayError::Unknown(word_of(alloc, name)?));
    }
    let shared = inputs_beside(alloc, a, b)?;
    if let Some(name) = first_missing(&shared, header) {
        return Err(ReplayError::Missing(word_of(alloc, name)?));
    }
    Ok(())
}
