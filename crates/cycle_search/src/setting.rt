//! What two circuits are compared by in cycles, whatever their latches read.

ghost use Rattle.std.specs.Prelude.{◌≡◌, IfOk};
ghost use Rattle.circuit_theory.specs.Interface.{shared_inputs};
ghost use Rattle.flat_net.specs.Comparable.{IsComparable};
ghost use Rattle.flat_net.specs.View.{ports_of};
ghost use Rattle.sec_setup.specs.Matching.{InterfacesMatch};
ghost use Rattle.sec_setup.specs.Setup.{AreGraphed};
ghost use Rattle.cycle_search.specs.Settings.{IsSettingOf};

use base_tables::NameTable;
use sec_base::{Ids, NoMemory, Words};
use sec_setup::ports::{orders_of, pairs_of};
use sec_setup::{Nets, Setup};
use std::alloc::Global;

/// What the nets are compared by, where their interfaces match and these are the names of the inputs that they share. No latch is cut
/// open, and latches may lie on cycles.
pub fn set_up_cycles<'a>(
    alloc: Global,
    nets: &Nets<'a>,
    shared: &NameTable,
) -> Result<Setup<'a>, NoMemory>
    requires left { IsComparable nets.now.left.now }
    requires right { IsComparable nets.now.right.now }
    requires matches { InterfacesMatch nets.now.left.now nets.now.right.now }
    requires shared { shared.now ≡ shared_inputs (ports_of nets.now.left.now) (ports_of nets.now.right.now) }
    requires graphs { AreGraphed nets.now }
    ensures { IfOk result (IsSettingOf nets.now.left.now nets.now.right.now) }
{
    let a = nets.left;
    let b = nets.right;
    a.keeps();
    b.keeps();
    let none = Words::new(alloc);
    let pairs = pairs_of(alloc, a, b, &none, &Ids::new(alloc), &Ids::new(alloc))?;
    let orders = orders_of(alloc, a, b, shared)?;
    let columns = shared.copy(alloc)?.into_words(alloc)?;
    Ok(Setup {
        left: a,
        right: b,
        left_graph: nets.left_graph,
        right_graph: nets.right_graph,
        inputs: shared.len(),
        exposed: none,
        orders,
        columns,
        pairs,
    })
}
