//! Which inputs two circuits share, or the first name that is missing.

ghost use Rattle.std.specs.Prelude.{◌≡◌, None, IfOk, IfErr, OnOk};
ghost use Rattle.circuit_theory.specs.Interface.{first_mismatch, inputs_beside, shared_inputs, AreOrders};
ghost use Rattle.sec_setup.specs.ports.flat_net.Comparable.{IsComparable};
ghost use Rattle.sec_setup.specs.ports.flat_net.View.{ports_of};
ghost use Rattle.sec_setup.specs.Matching.{InterfaceFails, RefusesName};

use crate::error::SetupError;
use crate::ports::{
    NameTable, Net, Orders, Seq, first_mismatch, inputs_beside, orders_of, output_names,
};
use std::alloc::Global;

/// The numbers of the inputs of both circuits: a shared input has its place among the shared inputs in A's order, and an
/// input that is left out a number of its own above these. A name that is one circuit's clock is first left out of the
/// other's inputs where nothing there reads it. `Interface` comes exactly where the interfaces don't match, with the first
/// name of A's inputs missing in B, B's in A, A's outputs in B, B's in A.
pub fn interface(alloc: Global, a: &Net, b: &Net) -> Result<Orders, SetupError>
    requires left { IsComparable a.now }
    requires right { IsComparable b.now }
    ensures ok { IfOk result (λ o. (first_mismatch (ports_of a.now) (ports_of b.now) ≡ None) × AreOrders (ports_of a.now) (ports_of b.now) o.left o.right) }
    ensures err { IfErr result (InterfaceFails a.now b.now) }
{
    let shared = shared_names(alloc, a, b)?;
    let orders = orders_of(alloc, a, b, &shared)?;
    Ok(orders)
}

/// The names of the inputs that both circuits have, in A's order. `Interface` comes as in `interface`.
pub fn shared_names(alloc: Global, a: &Net, b: &Net) -> Result<NameTable, SetupError>
    requires left { IsComparable a.now }
    requires right { IsComparable b.now }
    ensures ok { IfOk result (λ names. (first_mismatch (ports_of a.now) (ports_of b.now) ≡ None) × (names ≡ shared_inputs (ports_of a.now) (ports_of b.now))) }
    ensures err { IfErr result (InterfaceFails a.now b.now) }
{
    let left = inputs_beside(alloc, a, b)?;
    let right = inputs_beside(alloc, b, a)?;
    match_names(alloc, a, b, &left, &right)?;
    Ok(left)
}

/// Refuses the first name that is missing on the other side, of the inputs and then of the outputs.
fn match_names(
    alloc: Global,
    a: &Net,
    b: &Net,
    left: &NameTable,
    right: &NameTable,
) -> Result<(), SetupError>
    requires left_comparable { IsComparable a.now }
    requires right_comparable { IsComparable b.now }
    requires left { left.now ≡ inputs_beside (ports_of a.now) (ports_of b.now) }
    requires right { right.now ≡ inputs_beside (ports_of b.now) (ports_of a.now) }
    ensures ok { OnOk result (first_mismatch (ports_of a.now) (ports_of b.now) ≡ None) }
    ensures err { IfErr result (InterfaceFails a.now b.now) }
{
    let left_outputs = output_names(alloc, a.outputs())?;
    let right_outputs = output_names(alloc, b.outputs())?;
    if let Some(name) = first_mismatch(left, right, &left_outputs, &right_outputs) {
        return Err(mismatch_error(alloc, name));
    }
    Ok(())
}

/// The refusal of the name.
fn mismatch_error(alloc: Global, name: &[u8]) -> SetupError
    ensures { RefusesName name.now result }
{
    match name.to_vec(alloc) {
        Ok(bytes) => SetupError::Interface(Seq::from_vec(bytes)),
        Err(_) => SetupError::NoMemory,
    }
}
