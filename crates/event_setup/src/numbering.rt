//! The numbers of the inputs of the cut nets.

ghost use Rattle.std.specs.Prelude.{◌≡◌, ◌++◌, IfOk};
ghost use Rattle.circuit_theory.specs.Interface.{shared_inputs};
ghost use Rattle.base_tables.specs.Table.{AreDistinct};
ghost use Rattle.flat_net.specs.Comparable.{IsComparable};
ghost use Rattle.flat_net.specs.View.{ports_of};
ghost use Rattle.sec_setup.specs.ports.Numbered.{AreNumbered};
ghost use Rattle.event_setup.specs.Choosing.{AreOpened};
ghost use Rattle.event_setup.specs.Cutting.{AreMarkedCuts};

use crate::cutting::CutNets;
use base_tables::NameTable;
use flat_net::Net;
use sec_base::{NoMemory, Orders, Words};
use sec_setup::cut_points::Exposure;
use sec_setup::ports::orders_of;
use std::alloc::Global;

/// The numbers of the inputs of both nets, and the names of the numbers.
#[derive(Drop)]
pub(crate) struct Numbering {
    pub(crate) orders: Orders,
    pub(crate) columns: Words,
}

/// Numbers the inputs of the cut nets: the shared inputs, then the exposed latches, then all others.
pub(crate) fn number(
    alloc: Global,
    a: &Net,
    b: &Net,
    cut: &CutNets,
    shared: &NameTable,
    exposure: &Exposure,
) -> Result<Numbering, NoMemory>
    requires left { IsComparable a.now }
    requires right { IsComparable b.now }
    requires shared { shared.now ≡ shared_inputs (ports_of a.now) (ports_of b.now) }
    requires opened { AreOpened a.now b.now exposure.now }
    requires cut { AreMarkedCuts a.now b.now exposure.now cut.now }
    ensures columns { IfOk result (λ n. n.columns ≡ shared.now ++ exposure.now.names) }
    ensures orders { IfOk result (λ n. AreNumbered cut.now.left.net cut.now.right.net n.columns n.orders) }
{
    a.keeps();
    b.keeps();
    cut.left.net.keeps();
    let table = columns_of(alloc, shared, &exposure.names)?;
    let orders = orders_of(alloc, &cut.left.net, &cut.right.net, &table)?;
    let columns = table.into_words(alloc)?;
    Ok(Numbering { orders, columns })
}

/// The shared inputs, then the exposed latches.
fn columns_of(alloc: Global, shared: &NameTable, exposed: &Words) -> Result<NameTable, NoMemory>
    requires { AreDistinct (shared.now ++ exposed.now) }
    ensures { IfOk result (λ columns. columns ≡ shared.now ++ exposed.now) }
{
    let mut columns = shared.copy(alloc)?;
    for name in exposed.as_slice() {
        columns.add(alloc, name.as_slice())?;
    }
    Ok(columns)
}
