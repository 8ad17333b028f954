//! The numbers of an assumption's inputs.

ghost use Rattle.std.specs.Prelude.{ℕ, List, ◌+◌, ◌^◌, ◌<◌, length, IfOk};
ghost use Rattle.circuit_theory.specs.Interface.{AreNumbersOf};
ghost use Rattle.sec_setup.specs.ports.flat_net.View.{ports_of};
ghost use Rattle.cbf_unfold.specs.unfold_places.InputOrder.{IsOrderOf};

use sec_setup::ports::{Ids, NameTable, Net, NoMemory, orders_of};
use std::alloc::Global;

/// The numbers of the inputs of the circuit `c`: that of a column is its place among the columns.
pub fn numbers_of(alloc: Global, c: &Net, columns: &NameTable) -> Result<Ids, NoMemory>
    requires { length columns.now + length c.now.inputs + length c.now.inputs < 2 ^ 32 }
    ensures numbers { IfOk result (λ order. (others : List ℕ) × AreNumbersOf (ports_of c.now).inputs columns.now order others) }
    ensures order { IfOk result (IsOrderOf c.now) }
{
    let orders = orders_of(alloc, c, c, columns)?;
    Ok(orders.left)
}
