//! What is wrong with the shape of an assumption.

ghost use Rattle.std.specs.Prelude.{IfOk, IfSome, IfNone};
ghost use Rattle.sec_setup.specs.ports.flat_net.Comparable.{IsComparable};
ghost use Rattle.assume_laws.specs.assume_shape.Shape.{IsShapeFault, IsFirstForeign, AreShared};

use sec_setup::ports::{NameTable, Net, NoMemory, Word};

/// Why a circuit is no assumption on the inputs of two others.
#[derive(Drop)]
pub enum ShapeFault {
    /// It has a latch; the first one's name.
    Latch(Word),
    /// It has so many outputs, and not one.
    Outputs(u32),
    /// It has an input that the circuits don't share; the first one's name.
    Input(Word),
    /// Its functions are too large.
    TooLarge,
}

/// The first fault of the circuit `c` as an assumption on the inputs of these names: a latch, the number of its outputs, an input.
/// Its size isn't looked at.
pub fn shape_fault(c: &Net, shared: &NameTable) -> Result<Option<ShapeFault>, NoMemory>
    requires { IsComparable c.now }
    ensures { IfOk result (IsShapeFault c.now shared.now) }
{
    if c.latches().len() > 0 {
        let name = c.latches()[0].name.copy()?;
        return Ok(Some(ShapeFault::Latch(name)));
    }
    let count = c.outputs().len();
    if count != 1 {
        return Ok(Some(ShapeFault::Outputs(count as u32)));
    }
    if let Some(i) = first_foreign(c, shared) {
        let name = c.inputs()[i].name.copy()?;
        return Ok(Some(ShapeFault::Input(name)));
    }
    Ok(None)
}

/// The position of the first input whose name isn't among these.
fn first_foreign(c: &Net, shared: &NameTable) -> Option<usize>
    ensures found { IfSome result (IsFirstForeign c.now shared.now) }
    ensures none { IfNone result (AreShared shared.now c.now.inputs) }
{
    let inputs = c.inputs();
    for i in 0..inputs.len() {
        let Some(_) = shared.find(inputs[i].name.as_slice()) else {
            return Some(i);
        };
    }
    None
}
