//! The numbers of the inputs of two circuits whose interfaces match.

ghost use Rattle.std.specs.Prelude.{◌≡◌, None, IfOk, IfErr};
ghost use Rattle.circuit_theory.specs.Interface.{first_mismatch, AreOrders};
ghost use Rattle.flat_net.specs.Comparable.{IsComparable};
ghost use Rattle.flat_net.specs.View.{ports_of};
ghost use Rattle.plain_check.specs.under_base.compare_base.Compared.{InterfaceFails};

use flat_net::Net;
use plain_check::CompareError;
use sec_base::Orders;
use std::alloc::Global;

/// The numbers of the inputs of both circuits: a shared input has its place among the shared inputs in A's order, and an
/// input that is left out a number of its own above these. A name that is one circuit's clock is first left out of the
/// other's inputs where nothing there reads it. `Interface` comes exactly where the interfaces don't match, with the first
/// name of A's inputs missing in B, B's in A, A's outputs in B, B's in A.
pub fn interface(alloc: Global, a: &Net, b: &Net) -> Result<Orders, CompareError>
    requires left { IsComparable a.now }
    requires right { IsComparable b.now }
    ensures ok { IfOk result (λ o. (first_mismatch (ports_of a.now) (ports_of b.now) ≡ None) × AreOrders (ports_of a.now) (ports_of b.now) o.left o.right) }
    ensures err { IfErr result (InterfaceFails a.now b.now) }
{
    let orders = sec_setup::interface(alloc, a, b)?;
    Ok(orders)
}
